// Chain transitions are marked.
use loading::charts::Chart;
use wording::transitions::Marks;

/// The marks of chain transitions.
#[derive(Clone, Copy)]
pub(crate) struct ChainMarks<'a> {
    pub(crate) chart: &'a Chart,
}

impl Marks for ChainMarks<'_> {
    fn mark(&self, transition: usize) -> &'static str {
        if self.chart.is_chain(transition) {
            " chain"
        } else {
            ""
        }
    }
}
