// Which transitions are chain transitions is not known of a file that may break rules.
use wording::transitions::Marks;

/// No marks.
#[derive(Clone, Copy)]
pub(crate) struct Unmarked;

impl Marks for Unmarked {
    fn mark(&self, _transition: usize) -> &'static str {
        ""
    }
}
