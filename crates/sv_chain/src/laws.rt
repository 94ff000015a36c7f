//! The laws of filter chains, each the contract of a function that does nothing.

ghost use Rattle.sv_chain.specs.Laws.{FiltersStandInOrder, FiltersStandOnce, FiltersStandWhereMapped, MappingsMakeChains};

/// No filter appears twice in a chain.
pub fn filters_stand_once()
    ensures { FiltersStandOnce }
{}

/// A filter is in a chain exactly if one of its mappings is for the kind of the dispatch, and has a pattern that
/// matches the path or names the servlet.
pub fn filters_stand_where_mapped()
    ensures { FiltersStandWhereMapped }
{}

/// Filters whose pattern matches the path come before those that are only mapped to the servlet, each in the order of
/// their first matching mapping.
pub fn filters_stand_in_order()
    ensures { FiltersStandInOrder }
{}

/// A chain depends only on the filter mappings and on the filters' names.
pub fn mappings_make_chains()
    ensures { MappingsMakeChains }
{}
