//! The report on who may reach what as a page of HTML.
#![tactic(auto)]

mod cell_words;
mod html_cells;
mod html_tables;
mod left_out;
mod markup;
mod page;
mod ranks;
mod shares;

pub use markup::{html_text, html_text_is_plain};
pub use page::audit_html;
pub use ranks::each_kind_is_ranked;
pub use shares::{
    MAX_LISTED_FINDINGS, MAX_SHOWN_ROWS, limits_are_as_stated, pages_list_the_first_findings,
    pages_show_the_first_rows,
};
