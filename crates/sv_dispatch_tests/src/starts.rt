//! The calls and events of a start, and its result.

use crate::lives::{Life, add_life};
use std::alloc::Global;
use sv_rows::{Asks, Draft, Strays, cell, hold};
use sv_text::NoMemory;

/// Servlets, some with a number; filters; the numbers of listeners declared and passed. Then the fault with the numbers
/// of returned components, or the states of the servlets; and the entries of the start and of the stop.
const ROWS: &str = r#"
-- Jakarta Servlet 6.0, section 14.4 (load-on-startup): lower numbers first, ties in the order of the descriptor; none or a negative one last
a b=2 c=1 d=-1 e=2 | "" | 0 | 0 | Serving Serving Serving Serving Serving | servlet c init Ready, servlet b init Ready, servlet e init Ready, servlet a init Ready, servlet d init Ready, servlet d destroy, servlet a destroy, servlet e destroy, servlet b destroy, servlet c destroy
a=5 b=5 c | "" | 0 | 0 | Serving Serving Serving | servlet a init Ready, servlet b init Ready, servlet c init Ready, servlet c destroy, servlet b destroy, servlet a destroy
a=100 b=7 c=0 | "" | 0 | 0 | Serving Serving Serving | servlet c init Ready, servlet b init Ready, servlet a init Ready, servlet a destroy, servlet b destroy, servlet c destroy
b c=-2147483648 a=2147483647 | "" | 0 | 0 | Serving Serving Serving | servlet a init Ready, servlet b init Ready, servlet c init Ready, servlet c destroy, servlet b destroy, servlet a destroy
-- sections 6.2.1 and 11.3.4: a start that fails is undone, servlets before filters, and what failed is not destroyed
"" | f g!Failed | 2 | 2 | 2 InitFailed 0 2 2 | 1 ContextInitialized, 2 ContextInitialized, filter f init Ready, filter g init Failed, filter f destroy, 2 ContextDestroyed, 1 ContextDestroyed
a b=1 c!Failed | f g | 0 | 0 | 2 InitFailed 3 2 0 | filter f init Ready, filter g init Ready, servlet b init Ready, servlet a init Ready, servlet c init Failed, servlet a destroy, servlet b destroy, filter g destroy, filter f destroy
a b!NoMemory | "" | 0 | 0 | 3 NoMemory 2 0 0 | servlet a init Ready, servlet b init NoMemory, servlet a destroy
-- components that are not the descriptor's: nothing is called, nobody is told
a | f | 2 | 1 | 1 PartsMismatch 1 1 1 | ""
-- section 2.3.3.2: a servlet may be unavailable, and is gone then; a filter may not
a!Unavailable b | "" | 1 | 1 | Gone Serving | 1 ContextInitialized, servlet a init Unavailable, servlet b init Ready, servlet b destroy, 1 ContextDestroyed
"" | f!Unavailable | 0 | 0 | 2 InitFailed 0 1 0 | filter f init Unavailable
"#;

#[test]
fn a_start_tells_and_calls_in_order_or_is_undone(rt: HostRuntime) -> Result<(), Strays> {
    hold(&rt, &[ROWS], &Starts)
}

/// Answers with the result of a start, and the journal after the start and the stop.
struct Starts;

impl Asks for Starts {
    const QUESTION: usize = 4;

    fn answer(&self, alloc: Global, row: &str, answer: &mut Vec<u8>) -> Result<(), NoMemory> {
        let life = Life {
            servlets: cell(row, 0),
            filters: cell(row, 1),
            declared: count(cell(row, 2)),
            handed: count(cell(row, 3)),
            calls: "",
            attributes: "-",
        };
        let mut told = Draft::new(alloc);
        add_life(alloc, &life, &mut told);
        told.add_to(answer)
    }
}

fn count(word: &str) -> usize {
    match word {
        "1" => 1,
        "2" => 2,
        _ => 0,
    }
}
