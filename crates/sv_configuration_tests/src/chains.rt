//! The filter chains of dispatches.

ghost use Rattle.sv_text.specs.Gives.{GivesAnswer};

use std::alloc::Global;
use sv_chain::{Chain, Chains, MAX_CACHED_CHAINS, chain_plain};
use sv_descriptor::{Descriptor, Kind, read_descriptor};
use sv_rows::{Asks, Strays, cell, hold};
use sv_text::NoMemory;

/// Answers with the chain for a path, a servlet and a kind of dispatch, as the places of its filters.
#[derive(Drop)]
struct PlainChains(Descriptor);

impl Asks for PlainChains {
    const QUESTION: usize = 3;

    fn answer(&self, alloc: Global, row: &str, answer: &mut Vec<u8>) -> Result<(), NoMemory> {
        let kind = kind_of(cell(row, 2));
        for place in &chain_plain(alloc, &self.0, cell(row, 0), cell(row, 1), kind)? {
            let text = format!(in alloc; "{place}")?;
            answer.extend_from_slice(text.as_bytes())?;
        }
        Ok(())
    }
}

/// Returns the kind of this name.
pub fn kind_of(name: &str) -> Kind {
    match name {
        "FORWARD" => Kind::Forward,
        "INCLUDE" => Kind::Include,
        "ERROR" => Kind::Error,
        _ => Kind::Request,
    }
}

/// Compares the rows with the chains of the descriptor.
fn hold_of<R: Eprint + AllocGlobal>(rt: &R, descriptor: &str, rows: &str) -> Result<(), Strays> {
    match read_descriptor(rt.alloc(), descriptor) {
        Ok(descriptor) => hold(rt, &[rows], &PlainChains(descriptor)),
        Err(_) => Err(Strays::NoMemory),
    }
}

/// Filters 0 to 3, mapped by patterns and by servlets in a mixed order.
const MIXED: &str = r#"
servlet = [
    { servlet-name = "s", servlet-class = "S" },
    { servlet-name = "t", servlet-class = "T" },
]
filter = [
    { filter-name = "a", filter-class = "A" },
    { filter-name = "b", filter-class = "B" },
    { filter-name = "c", filter-class = "C" },
    { filter-name = "d", filter-class = "D" },
]
filter-mapping = [
    { filter-name = "c", servlet-name = ["s"] },
    { filter-name = "a", url-pattern = ["/x/*"] },
    { filter-name = "b", servlet-name = ["t", "s"], dispatcher = ["FORWARD", "INCLUDE"] },
    { filter-name = "d", url-pattern = ["*.do", "/y"], servlet-name = ["t"] },
    { filter-name = "a", url-pattern = ["/"], dispatcher = ["ERROR"] },
    { filter-name = "b", url-pattern = ["/x/1"], dispatcher = ["REQUEST", "FORWARD"] },
    { filter-name = "c", servlet-name = ["default"], dispatcher = ["INCLUDE"] },
]
"#;

/// The columns: path; servlet; kind; chain.
const MIXED_ROWS: &str = r#"
-- Servlet, section 6.2.4: the patterns that match first, then the names, each in the order of the descriptor
/x/1      | s       | REQUEST | 012
/x/1      | t       | REQUEST | 013
/x/2.do   | s       | REQUEST | 032
/x        | default | REQUEST | 0
/x/       | default | REQUEST | 0
/xx       | s       | REQUEST | 2
/z        | default | REQUEST | ""
/z        | t       | REQUEST | 3
""        | s       | REQUEST | 2
-- a filter that matches by a pattern and by a name stands once, where it matches first
/y        | t       | REQUEST | 3
/x/1      | s       | FORWARD | 1
/x/2.do   | t       | REQUEST | 03
-- section 6.2.5: a mapping is for the kinds that it names, and for requests alone where it names none
/x/2      | s       | FORWARD | 1
/x/2      | t       | INCLUDE | 1
/x/2      | default | INCLUDE | 2
/x/2      | default | FORWARD | ""
/x/1      | s       | ERROR   | 0
/z        | default | ERROR   | 0
-- names and paths are compared with case
/X/1      | s       | REQUEST | 2
/z        | S       | REQUEST | ""
"#;

#[test]
fn patterns_stand_before_names_in_the_order_of_the_descriptor(
    rt: HostRuntime,
) -> Result<(), Strays> {
    hold_of(&rt, MIXED, MIXED_ROWS)
}

/// A filter for all servlets by name, and a filter by pattern that precedes it although its mapping is later.
const ALL: &str = r#"
filter = [
    { filter-name = "f", filter-class = "F" },
    { filter-name = "g", filter-class = "G" },
]
filter-mapping = [
    { filter-name = "g", servlet-name = ["*"] },
    { filter-name = "f", url-pattern = ["/*"] },
    { filter-name = "g", url-pattern = ["/x"] },
]
"#;

/// The columns: path; servlet; kind; chain.
const ALL_ROWS: &str = r#"
/x        | default | REQUEST | 01
/x        | s       | REQUEST | 01
/x        | s       | FORWARD | ""
/bad      | bad     | REQUEST | 01
/bad      | bad     | ERROR   | ""
"#;

#[test]
fn a_star_covers_every_servlet(rt: HostRuntime) -> Result<(), Strays> {
    hold_of(&rt, ALL, ALL_ROWS)
}

/// Filters 0 to 2, each mapped by patterns and by names, for all kinds and in different orders.
const ORDERS: &str = r#"
servlet = [
    { servlet-name = "s", servlet-class = "S" },
    { servlet-name = "t", servlet-class = "T" },
]
filter = [
    { filter-name = "a", filter-class = "A" },
    { filter-name = "b", filter-class = "B" },
    { filter-name = "c", filter-class = "C" },
]
filter-mapping = [
    { filter-name = "b", servlet-name = ["s"] },
    { filter-name = "a", url-pattern = ["/*"] },
    { filter-name = "b", url-pattern = ["/b/*"], dispatcher = ["FORWARD", "ERROR"] },
    { filter-name = "c", url-pattern = ["*.x"], servlet-name = ["s"], dispatcher = ["REQUEST", "INCLUDE"] },
    { filter-name = "a", servlet-name = ["*"], dispatcher = ["INCLUDE", "ERROR"] },
    { filter-name = "c", url-pattern = [""] },
]
"#;

/// The columns: path; servlet; kind; chain.
const ORDERS_ROWS: &str = r#"
-- Servlet, section 6.2.4: names stand behind patterns, also where their mappings stand in front
/q        | s       | REQUEST | 012
/b/q      | s       | REQUEST | 012
/q        | t       | REQUEST | 0
-- a filter of one mapping by pattern and by name stands once, among the patterns
/q.x      | s       | REQUEST | 021
/q.x      | default | REQUEST | 02
/q.x/y    | default | REQUEST | 0
-- section 12.2: the empty pattern is for the context root alone
/         | default | REQUEST | 02
-- section 6.2.5: each kind has the mappings that name it
/q        | s       | INCLUDE | 20
/q.x      | s       | INCLUDE | 20
/q.x      | t       | INCLUDE | 20
/q        | default | INCLUDE | 0
/b/q      | s       | FORWARD | 1
/b        | default | FORWARD | 1
/bb       | s       | FORWARD | ""
/b/q      | s       | ERROR   | 10
/q        | default | ERROR   | 0
"#;

#[test]
fn each_kind_has_its_chain_in_the_order_of_the_mappings(rt: HostRuntime) -> Result<(), Strays> {
    hold_of(&rt, ORDERS, ORDERS_ROWS)
}

/// Answers with the chain for a path, a servlet and a kind, looked up twice, and the number of chains kept after that.
/// Before, one chain more than can be kept was looked up. A path `#N` has N bytes.
#[derive(Drop)]
struct KeptChains(Descriptor);

impl Asks for KeptChains {
    const QUESTION: usize = 3;

    fn answer(&self, alloc: Global, row: &str, answer: &mut Vec<u8>) -> Result<(), NoMemory> {
        let mut chains = filled(alloc, &self.0)?;
        let path = path_of(alloc, cell(row, 0))?;
        let (servlet, kind) = (cell(row, 1), kind_of(cell(row, 2)));
        let first = chains.of(alloc, &self.0, path.as_str(), servlet, kind)?;
        write_places(alloc, &first, answer)?;
        let second = chains.of(alloc, &self.0, path.as_str(), servlet, kind)?;
        write_places(alloc, &second, answer)?;
        let text = format!(in alloc; "{}", chains.count())?;
        answer.extend_from_slice(text.as_bytes())?;
        Ok(())
    }
}

/// Returns chains after look-ups of one path more than can be kept.
fn filled(alloc: Global, descriptor: &Descriptor) -> Result<Chains, NoMemory>
    ensures { GivesAnswer result descriptor.now }
{
    let mut chains = Chains::compile(alloc, descriptor);
    for number in 0..=MAX_CACHED_CHAINS {
        let path = format!(in alloc; "/{number}")?;
        chains.of(alloc, descriptor, path.as_str(), "s", Kind::Request)?;
    }
    Ok(chains)
}

/// Returns the path of a cell, or a path of the given number of slashes.
fn path_of(alloc: Global, cell: &str) -> Result<String, NoMemory> {
    let mut path = String::new(alloc);
    match cell.strip_prefix('#') {
        Some(count) => {
            for _byte in 0..count.parse::<usize>().unwrap_or(0) {
                path.push('/')?;
            }
        }
        None => path.push_str(cell)?,
    }
    Ok(path)
}

fn write_places(alloc: Global, chain: &Chain, answer: &mut Vec<u8>) -> Result<(), NoMemory> {
    for place in chain.as_slice() {
        let text = format!(in alloc; "{place}")?;
        answer.extend_from_slice(text.as_bytes())?;
    }
    answer.extend_from_slice(b".")?;
    Ok(())
}

/// The columns: path; servlet; kind; the chain twice, and the number of kept chains.
const KEPT_ROWS: &str = r#"
-- the last of the paths before let all others go, and a hit lets nothing go
/x        | default | REQUEST | 01.01.2
/x        | s       | REQUEST | 01.01.2
/bad      | bad     | REQUEST | 01.01.2
/1024     | s       | REQUEST | 01.01.1
/1023     | s       | REQUEST | 01.01.2
-- another servlet takes the place of the path's, another kind has a place of its own
/1024     | t       | REQUEST | 01.01.1
/1024     | s       | FORWARD | ..2
/x        | s       | FORWARD | ..2
-- a path and a servlet's name of 1,024 bytes are kept, and longer ones are answered and not kept
#1023     | s       | REQUEST | 01.01.2
#1024     | s       | REQUEST | 01.01.1
#1022     | ss      | REQUEST | 01.01.2
#1023     | ss      | REQUEST | 01.01.1
#70000    | s       | REQUEST | 01.01.1
"#;

#[test]
fn the_cache_changes_no_chain(rt: HostRuntime) -> Result<(), Strays> {
    match read_descriptor(rt.alloc(), ALL) {
        Ok(descriptor) => hold(&rt, &[KEPT_ROWS], &KeptChains(descriptor)),
        Err(_) => Err(Strays::NoMemory),
    }
}
