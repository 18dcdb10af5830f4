ghost use Rattle.std.specs.Prelude.{◌≡◌, ◌-◌, ◌≤◌, nat_le};
ghost use Rattle.std.specs.List.{list_all};

/// The most bytes that a line may have.
const MAX_LINE: usize = 4096;

/// Where a line stands in a text: from where and up to where, its line end left out.
#[derive(Clone, Copy)]
pub struct Span {
    pub from: usize,
    pub to: usize,
    ghost ordered: { from ≤ to },
}

impl Span {
    /// How many bytes the line has.
    pub fn len(&self) -> usize
        ensures { result ≡ self.now.to - self.now.from }
    {
        self.to - self.from
    }
}

/// Whether no line has more than 4,096 bytes.
pub fn are_short(spans: &[Span]) -> bool
    ensures { result ≡ list_all (λ span. nat_le (span.to - span.from) 4096) spans.now }
{
    spans.iter().all(|span| span.len() <= MAX_LINE)
}
