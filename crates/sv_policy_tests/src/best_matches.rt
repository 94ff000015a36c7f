//! The best match of a path among patterns, by search and by look-up, and how it splits the path.

use crate::policies::patterns_of;
use std::alloc::Global;
use sv_mapping::{Pattern, PatternTable, best, split};
use sv_rows::{Asks, Strays, cell, hold};
use sv_text::NoMemory;

/// The columns: patterns in their order; path; best pattern, or `-` for none; servlet path; path info, or `-` for none.
const ROWS: &str = r#"
-- Servlet, section 12.2.2: the example mapping set
/foo/bar/* /baz/* /catalog *.bop | /foo/bar/index.html  | /foo/bar/* | /foo/bar             | /index.html
/foo/bar/* /baz/* /catalog *.bop | /foo/bar/index.bop   | /foo/bar/* | /foo/bar             | /index.bop
/foo/bar/* /baz/* /catalog *.bop | /baz                 | /baz/*     | /baz                 | -
/foo/bar/* /baz/* /catalog *.bop | /baz/index.html      | /baz/*     | /baz                 | /index.html
/foo/bar/* /baz/* /catalog *.bop | /catalog             | /catalog   | /catalog             | -
/foo/bar/* /baz/* /catalog *.bop | /catalog/index.html  | -          | -                    | -
/foo/bar/* /baz/* /catalog *.bop | /catalog/racecar.bop | *.bop      | /catalog/racecar.bop | -
/foo/bar/* /baz/* /catalog *.bop | /index.bop           | *.bop      | /index.bop           | -
-- the same with the default servlet that the specification's table names
/ /foo/bar/* /baz/* /catalog *.bop | /catalog/index.html | /         | /catalog/index.html  | -
/ /foo/bar/* /baz/* /catalog *.bop | /baz                | /baz/*    | /baz                 | -

-- section 12.1: an exact match is best, wherever it stands in the list
/a /a/*               | /a        | /a        | /a        | -
/a/* /a               | /a        | /a        | /a        | -
/* *.b / /a.b         | /a.b      | /a.b      | /a.b      | -
/a/* *.jsp /a/b.jsp   | /a/b.jsp  | /a/b.jsp  | /a/b.jsp  | -
/a                    | /a/       | -         | -         | -
/a/                   | /a/       | /a/       | /a/       | -
/a/                   | /a        | -         | -         | -
/a/b                  | /a/b/c    | -         | -         | -

-- section 12.1: then the longest path prefix, a directory at a time
/a/*                  | /a        | /a/*      | /a        | -
/a/*                  | /a/       | /a/*      | /a        | /
/a/*                  | /a/b/c    | /a/*      | /a        | /b/c
/a/*                  | /ab       | -         | -         | -
/a/*                  | /         | -         | -         | -
/a/b/*                | /a        | -         | -         | -
/* /a/* /a/b/*        | /a/b/c    | /a/b/*    | /a/b      | /c
/a/b/* /a/* /*        | /a/b/c    | /a/b/*    | /a/b      | /c
/* /a/* /a/b/*        | /a/b      | /a/b/*    | /a/b      | -
/* /a/* /a/b/*        | /a/bc     | /a/*      | /a        | /bc
/* /a/* /a/b/*        | /x        | /*        | ""        | /x
/*                    | /         | /*        | ""        | /
/*                    | /a/b      | /*        | ""        | /a/b
/é/*                  | /é/x      | /é/*      | /é        | /x

-- section 12.1: then the extension of the last segment, behind its last dot
*.jsp /a/*            | /a/b.jsp  | /a/*      | /a        | /b.jsp
*.jsp /*              | /b.jsp    | /*        | ""        | /b.jsp
*.jsp                 | /a/b.jsp  | *.jsp     | /a/b.jsp  | -
*.jsp                 | /.jsp     | *.jsp     | /.jsp     | -
*.jsp                 | /jsp      | -         | -         | -
*.jsp                 | /a.jsp/   | -         | -         | -
*.jsp                 | /a.jsp/b  | -         | -         | -
*.jsp                 | /a.jspx   | -         | -         | -
*.c *.b               | /a.b.c    | *.c       | /a.b.c    | -
*.b.c                 | /a.b.c    | -         | -         | -
*.                    | /a.       | *.        | /a.       | -
*.                    | /a        | -         | -         | -
*.                    | /a.b      | -         | -         | -

-- section 12.1: then the default pattern, whose servlet path is the whole path
/                     | /         | /         | /         | -
/                     | /a/b      | /         | /a/b      | -
/ *.jsp               | /b.jsp    | *.jsp     | /b.jsp    | -
/ *.jsp               | /b.html   | /         | /b.html   | -
/ /*                  | /b        | /*        | ""        | /b

-- section 12.2: the empty pattern is the context root alone, an exact match with path info /
""                    | /         | ""        | ""        | /
""                    | /a        | -         | -         | -
/ ""                  | /         | ""        | ""        | /
/* ""                 | /         | ""        | ""        | /
"" /                  | /a        | /         | /a        | -

-- section 12.2: every other text is an exact match, a star within it too
/a*                   | /a*       | /a*       | /a*       | -
/a*                   | /ab       | -         | -         | -
/*.do                 | /x.do     | -         | -         | -
/*.do                 | /*.do     | /*.do     | /*.do     | -
/a/*/b                | /a/x/b    | -         | -         | -
/a/*/b                | /a/*/b    | /a/*/b    | /a/*/b    | -
/**                   | /a        | -         | -         | -
/a/* /*               | /a/*      | /a/*      | /a        | /*

-- section 12.1: patterns and paths are compared with case
/a/*                  | /A/b      | -         | -         | -
/a                    | /A        | -         | -         | -
*.JSP                 | /a.jsp    | -         | -         | -

-- the order of the forms, wherever they stand in the list
/ *.b /* /a/* /a.b    | /a.b      | /a.b      | /a.b      | -
/ *.b /a/* /a/b/* /a/b/c/* | /a/b/c | /a/b/c/* | /a/b/c    | -
/a/b/* /a/*           | /a/b/c/d  | /a/b/*    | /a/b      | /c/d
/a/* /a/b/c/*         | /a/b/x    | /a/*      | /a        | /b/x
/ *.b                 | /x/y.b    | *.b       | /x/y.b    | -
/ *.b                 | /x.b/y    | /         | /x.b/y    | -
*.a.b                 | /x.a.b    | -         | -         | -
*.b                   | /x.a.b    | *.b       | /x.a.b    | -
/* / ""               | /         | ""        | ""        | /
/ /*                  | /         | /*        | ""        | /
/a/*                  | /a/*      | /a/*      | /a        | /*

-- of equal patterns the first counts
/x /x                 | /x        | /x        | /x        | -
/y /x/* /x/*          | /x/y      | /x/*      | /x        | /y
/x *.e *.e            | /y.e      | *.e       | /y.e      | -
/x / /                | /y        | /         | /y        | -
"" ""                 | /         | ""        | ""        | /
/x/* /x/*             | /x/y      | /x/*      | /x        | /y
/ / /                 | /y        | /         | /y        | -
*.e /x *.e            | /y.e      | *.e       | /y.e      | -

-- paths and patterns are taken as they stand: an empty segment is a segment
/a//b                 | /a//b     | /a//b     | /a//b     | -
/a//b                 | /a/b      | -         | -         | -
/a/b                  | /a//b     | -         | -         | -
/a/*                  | /a//b     | /a/*      | /a        | //b
/a/* /a//*            | /a//x     | /a//*     | /a/       | /x
//*                   | /         | //*       | /         | -
//*                   | //a       | //*       | /         | /a
//*                   | /a        | -         | -         | -
/*                    | //        | /*        | ""        | //
/a/../b               | /b        | -         | -         | -
"#;

#[test]
fn the_best_pattern_of_a_path_splits_it(rt: HostRuntime) -> Result<(), Strays> {
    hold(&rt, &[ROWS], &BestMatches)
}

/// Answers with the best pattern of a path and how it splits the path.
struct BestMatches;

impl Asks for BestMatches {
    const QUESTION: usize = 2;

    fn answer(&self, alloc: Global, row: &str, answer: &mut Vec<u8>) -> Result<(), NoMemory> {
        let patterns = patterns_of(alloc, cell(row, 0), ' ')?;
        let told = told(alloc, patterns.as_slice(), cell(row, 1))?;
        answer.extend_from_slice(told.as_bytes())?;
        Ok(())
    }
}

fn told(alloc: Global, patterns: &[Pattern], path: &str) -> Result<String, NoMemory> {
    let best = best(patterns, path);
    if !is_looked_up(alloc, patterns, path, best)? {
        return Ok(String::from_str(alloc, "another look-up")?);
    }
    let Some(pattern) = best.and_then(|place| patterns.get(place)) else {
        let any = patterns.iter().any(|pattern| pattern.matches(path));
        let text = if any {
            "a match is left out"
        } else {
            "- | - | -"
        };
        return Ok(String::from_str(alloc, text)?);
    };
    if !pattern.matches(path) || best != place_of(patterns, pattern.text()) {
        return Ok(String::from_str(alloc, "no match, or not the first")?);
    }
    let parts = split(pattern, path);
    let (text, servlet_path) = (pattern.text(), parts.servlet_path);
    let path_info = parts.path_info.unwrap_or("-");
    Ok(format!(in alloc; "{text} | {servlet_path} | {path_info}")?)
}

/// Returns the first place of a pattern with this text.
fn place_of(patterns: &[Pattern], text: &str) -> Option<usize> {
    for (place, pattern) in patterns.iter().enumerate() {
        if pattern.text() == text {
            return Some(place);
        }
    }
    None
}

/// Returns whether a look-up in compiled patterns gives this best match. It may take at most four probes more than the
/// path has segments.
fn is_looked_up(
    alloc: Global,
    patterns: &[Pattern],
    path: &str,
    best: Option<usize>,
) -> Result<bool, NoMemory> {
    let looked = PatternTable::compile(alloc, patterns)?.lookup(path);
    let segments = path.split('/').count().saturating_sub(1);
    Ok(looked.best == best && looked.probes <= segments.saturating_add(4))
}
