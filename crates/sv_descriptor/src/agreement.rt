//! Agreement among the elements of a descriptor.

ghost use Rattle.std.specs.Prelude.{◌≡◌, ◌||◌, ◌++◌, ◌∷◌, [], IfOk, OnOk, not, codes};
ghost use Rattle.std.specs.List.{flat_map, list_all, position};
ghost use Rattle.sv_text.specs.Gives.{Gives};
ghost use Rattle.sv_descriptor.specs.Agreement as spec;
ghost use Rattle.sv_descriptor.specs.Names.{HaveSame};
ghost use Rattle.sv_descriptor.specs.declared.fault.FaultCode.TheVariants.{DuplicatePattern, UnknownServlet};
ghost use Rattle.sv_descriptor.specs.declared.fault.ValueStep.TheVariants.{Item};
ghost use Rattle.sv_descriptor.specs.Servlet.{is_reserved_servlet};
ghost use Rattle.sv_descriptor.specs.Fault.{located_fault, refuse_at, item_key};
ghost use Rattle.sv_descriptor.specs.Table.{is_among, texts as texts_of};

use crate::fault::{FaultCode, LocatedReadFault, refuse, refuse_item, within_item, within_key};
use crate::filter::FilterMapping;
use crate::names::{Names, check_distinct, distinct_names, first_repeat, refuse_repeat, repeats};
use crate::servlet::{ServletMapping, is_reserved_servlet};
use crate::web_app::WebApp;
use std::alloc::Global;
use sv_mapping::Pattern;
use sv_text::{NoMemory, Text};

/// Checks that the elements of a descriptor agree with one another.
///
/// # Errors
/// In this order: [`FaultCode::DuplicateName`] for servlets, filters and roles, [`FaultCode::UnknownServlet`] and
/// [`FaultCode::DuplicatePattern`] for servlet mappings, [`FaultCode::UnknownFilter`] and [`FaultCode::UnknownServlet`]
/// for filter mappings; or [`LocatedReadFault::NoMemory`].
pub fn check_agreement(alloc: Global, web_app: &WebApp) -> Result<(), LocatedReadFault>
    ensures { Gives located_fault result (spec.elements_agree web_app.now) }
{
    let declared = web_app.servlets.as_slice();
    let Some(servlets) = distinct_names(alloc, declared)? else {
        return refuse_repeat(alloc, declared, "servlet", "servlet-name");
    };
    let declared = web_app.filters.as_slice();
    let Some(filters) = distinct_names(alloc, declared)? else {
        return refuse_repeat(alloc, declared, "filter", "filter-name");
    };
    let roles = web_app.rules.declared.as_slice();
    check_distinct(alloc, roles, "security-role", "role-name")?;
    check_servlet_mappings(alloc, &servlets, web_app)?;
    check_filter_mappings(alloc, &servlets, &filters, web_app)
}

#[tactic(auto, using(crate::proofs::Lists::list_all_position))]
fn check_servlet_mappings(
    alloc: Global,
    servlets: &Names<'_>,
    web_app: &WebApp,
) -> Result<(), LocatedReadFault>
    requires { HaveSame servlets.now (spec.servlet_names web_app.now) }
    ensures { Gives located_fault result (spec.servlet_mappings_fit web_app.now) }
{
    let mappings = web_app.servlet_mappings.as_slice();
    if let Some(place) = first_unmapped(servlets, mappings) {
        let code = FaultCode::UnknownServlet;
        return refuse_item(alloc, code, "servlet-mapping", place, "servlet-name");
    }
    let patterns = servlet_patterns(alloc, mappings)?;
    if repeats(alloc, patterns.as_slice())? {
        let number = first_repeat(alloc, patterns.as_slice())?;
        return refuse_pattern(alloc, mappings, number);
    }
    Ok(())
}

/// Refuses the pattern with a number among those of all servlet mappings.
fn refuse_pattern(
    alloc: Global,
    mappings: &[ServletMapping],
    number: usize,
) -> Result<(), LocatedReadFault>
    ensures { Gives located_fault result (refuse_at DuplicatePattern (codes "url-pattern") (spec.pattern_steps 0 mappings.now number)) }
{
    let code = FaultCode::DuplicatePattern;
    let mut number = number;
    for (place, mapping) in mappings.iter().enumerate() {
        let patterns = mapping.url_patterns.as_slice().len();
        if number < patterns {
            return refuse_nested(alloc, code, "servlet-mapping", place, "url-pattern", number);
        }
        number -= patterns;
    }
    refuse(alloc, code, "url-pattern")
}

/// Refuses an item of the list at a key of an item of a list in the file's table.
fn refuse_nested(
    alloc: Global,
    code: FaultCode,
    list: &str,
    item: usize,
    key: &str,
    nested_item: usize,
) -> Result<(), LocatedReadFault>
    ensures { Gives located_fault result (refuse_at code key.now (item_key list.now item key.now ++ Item nested_item ∷ [])) }
{
    let refused = within_item(nested_item, refuse(alloc, code, key));
    let refused = within_key(alloc, key, refused);
    within_key(alloc, list, within_item(item, refused))
}

fn first_unmapped(servlets: &Names<'_>, mappings: &[ServletMapping]) -> Option<usize>
    ensures { result ≡ position (λ mapping. not (is_among servlets.now mapping.servlet_name)) mappings.now }
{
    mappings.iter().position(|mapping| !servlets.contains(mapping.servlet_name.as_str()))
}

fn servlet_patterns(alloc: Global, mappings: &[ServletMapping]) -> Result<Vec<&str>, NoMemory>
    ensures { IfOk result (λ texts. texts_of texts.items ≡ flat_map (λ mapping. mapping.url_patterns) mappings.now) }
{
    let mut texts = Vec::new(alloc);
    for mapping in mappings {
        push_patterns(&mut texts, mapping.url_patterns.as_slice())?;
    }
    Ok(texts)
}

fn push_patterns<'a>(texts: &mut Vec<&'a str>, patterns: &'a [Pattern]) -> Result<(), NoMemory>
    ensures { OnOk result (texts_of texts.new.items ≡ texts_of texts.old.items ++ patterns.now) }
{
    for pattern in patterns {
        texts.push(text_of(pattern))?;
    }
    Ok(())
}

fn text_of(pattern: &Pattern) -> &str
    ensures { result.now ≡ pattern.now }
{
    pattern.text()
}

#[tactic(auto, using(crate::proofs::Lists::list_all_position))]
fn check_filter_mappings(
    alloc: Global,
    servlets: &Names<'_>,
    filters: &Names<'_>,
    web_app: &WebApp,
) -> Result<(), LocatedReadFault>
    requires servlets { HaveSame servlets.now (spec.servlet_names web_app.now) }
    requires filters { HaveSame filters.now (spec.filter_names web_app.now) }
    ensures { Gives located_fault result (spec.filter_mappings_fit web_app.now) }
{
    let mappings = web_app.filter_mappings.as_slice();
    if let Some(place) = first_without_filter(filters, mappings) {
        let code = FaultCode::UnknownFilter;
        return refuse_item(alloc, code, "filter-mapping", place, "filter-name");
    }
    if !have_servlets(servlets, mappings) {
        return refuse_servlet(alloc, servlets, mappings);
    }
    Ok(())
}

fn first_without_filter(filters: &Names<'_>, mappings: &[FilterMapping]) -> Option<usize>
    ensures { result ≡ position (λ mapping. not (is_among filters.now mapping.filter_name)) mappings.now }
{
    mappings
        .iter()
        .position(|mapping| !filters.contains(mapping.filter_name.as_str()))
}

/// Refuses the first unknown servlet of the filter mappings.
fn refuse_servlet(
    alloc: Global,
    servlets: &Names<'_>,
    mappings: &[FilterMapping],
) -> Result<(), LocatedReadFault>
    ensures { Gives located_fault result (refuse_at UnknownServlet (codes "servlet-name") (spec.unknown_servlet_steps (λ name. is_reserved_servlet name || is_among servlets.now name) 0 mappings.now)) }
{
    let code = FaultCode::UnknownServlet;
    for (place, mapping) in mappings.iter().enumerate() {
        let names = mapping.servlet_names.as_slice();
        if !are_known(servlets, names) {
            let name = first_unknown(servlets, names).unwrap_or(0);
            return refuse_nested(alloc, code, "filter-mapping", place, "servlet-name", name);
        }
    }
    refuse(alloc, code, "servlet-name")
}

fn first_unknown(servlets: &Names<'_>, names: &[Text]) -> Option<usize>
    ensures { result ≡ position (λ name. not (is_reserved_servlet name || is_among servlets.now name)) names.now }
{
    names
        .iter()
        .position(|name| !is_known(servlets, name.as_str()))
}

fn have_servlets(servlets: &Names<'_>, mappings: &[FilterMapping]) -> bool
    ensures { result ≡ list_all (λ mapping. list_all (λ name. is_reserved_servlet name || is_among servlets.now name) mapping.servlet_names) mappings.now }
{
    mappings.iter().all(|mapping| are_known(servlets, mapping.servlet_names.as_slice()))
}

fn are_known(servlets: &Names<'_>, names: &[Text]) -> bool
    ensures { result ≡ list_all (λ name. is_reserved_servlet name || is_among servlets.now name) names.now }
{
    names.iter().all(|name| is_known(servlets, name.as_str()))
}

fn is_known(servlets: &Names<'_>, name: &str) -> bool
    ensures { result ≡ (is_reserved_servlet name.now || is_among servlets.now name.now) }
{
    is_reserved_servlet(name) || servlets.contains(name)
}
