//! Starts that succeed or fail.

use crate::containers::{Does, answer_with};
use crate::deployments::TestContainer;
use std::alloc::Global;
use sv_rows::{Asks, Draft, Strays, hold};
use sv_text::NoMemory;

/// Answers with the success of a start, or the reason for its failure.
struct Starts;

impl Does for Starts {
    fn act(
        &self,
        _alloc: Global,
        _row: &str,
        _container: &mut TestContainer,
        told: &mut Draft,
        _entries: &mut Draft,
    ) {
        told.add("started");
    }
}

impl Asks for Starts {
    const QUESTION: usize = 1;

    fn answer(&self, alloc: Global, row: &str, answer: &mut Vec<u8>) -> Result<(), NoMemory> {
        answer_with(alloc, row, self, answer)
    }
}

/// The columns: deployments; then `started` and the number of contexts whose components were returned, or the code with
/// its number and context, the number of returned deployments, and the entries.
const ROWS: &str = r#"
""                 | started                   | 0
*1                 | started                   | 1
*64                | started                   | 64
who@ who@/a who@/b | started                   | 3
-- Jakarta Servlet 6.0, section 12.1: the paths of contexts differ, and nothing is called where they do not
who@/a who@/a      | DuplicateContext 1 /a     | 2  | ""
who@ who@/a who@   | DuplicateContext 1 /      | 3  | ""
who@/a who@/b who@/c who@/b who@/a | DuplicateContext 1 /b | 5 | ""
*65                | TooManyContexts 2 /65     | 65 | ""
*66                | TooManyContexts 2 /65     | 66 | ""
-- two of one path come before one too many
*65 who@/7         | DuplicateContext 1 /7     | 66 | ""
-- sections 2.3.2 and 6.2.1: where a component fails to start, its context is stopped, and those before it
bad@/b             | InitFailed 12 /b          | 1  | told /b 1 ContextInitialized, told /b 2 ContextInitialized, called /b filter f1 init Ready, called /b filter f2 init Failed, called /b filter f1 destroy, told /b 2 ContextDestroyed, told /b 1 ContextDestroyed
who@/a bad@ who@/c | InitFailed 12 /           | 3  | told /a 1 ContextInitialized, called /a servlet who init Ready, told / 1 ContextInitialized, told / 2 ContextInitialized, called / filter f1 init Ready, called / filter f2 init Failed, called / filter f1 destroy, told / 2 ContextDestroyed, told / 1 ContextDestroyed, called /a servlet who destroy, told /a 1 ContextDestroyed
"#;

#[test]
fn a_container_starts_or_returns_all_its_parts(rt: HostRuntime) -> Result<(), Strays> {
    hold(&rt, &[ROWS], &Starts)
}
