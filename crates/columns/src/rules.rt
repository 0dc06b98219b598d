// Parts of the columns, lent: what works on rules asks for no more of them than it reads.
ghost use Rattle.std.specs.Prelude.{[], ◌≡◌};
ghost use Rattle.columns.specs.Columns.{Limits, Short};

use table::Table;

// The ends of m rules of n transitions: rule r goes from source[r] to target[r].
#[derive(Clone, Copy)]
pub struct Arcs<'a> {
    pub source: &'a [u16; Table::MAX_M],
    pub target: &'a [u16; Table::MAX_M],
    pub m: usize,
    pub n: usize,
    ghost limits: { Limits source.now target.now [] m n },
}

impl<'a> Arcs<'a> {
    // The rules turned round.
    pub fn back(&self) -> Arcs<'a>
        ensures { (result.source ≡ self.now.target) × (result.target ≡ self.now.source) × (result.m ≡ self.now.m) × (result.n ≡ self.now.n) }
    {
        Arcs {
            source: self.target,
            target: self.source,
            m: self.m,
            n: self.n,
        }
    }
}

// The rules with their offsets.
#[derive(Clone, Copy)]
pub struct Rules<'a> {
    pub source: &'a [u16; Table::MAX_M],
    pub target: &'a [u16; Table::MAX_M],
    pub offset: &'a [u16; Table::MAX_M],
    pub m: usize,
    pub n: usize,
    ghost limits: { Limits source.now target.now offset.now m n },
}

// The rules with a delay each.
#[derive(Clone, Copy)]
pub struct Filled<'a> {
    pub source: &'a [u16; Table::MAX_M],
    pub target: &'a [u16; Table::MAX_M],
    pub offset: &'a [u16; Table::MAX_M],
    pub delay: &'a [u32; Table::MAX_M],
    pub m: usize,
    pub n: usize,
    ghost limits: { Limits source.now target.now offset.now m n },
    ghost short: { Short delay.now m },
}

impl<'a> Rules<'a> {
    pub fn arcs(&self) -> Arcs<'a>
        ensures { (result.source ≡ self.now.source) × (result.target ≡ self.now.target) × (result.m ≡ self.now.m) × (result.n ≡ self.now.n) }
    {
        Arcs {
            source: self.source,
            target: self.target,
            m: self.m,
            n: self.n,
        }
    }
}

impl<'a> Filled<'a> {
    pub fn rules(&self) -> Rules<'a>
        ensures { (result.source ≡ self.now.source) × (result.target ≡ self.now.target) × (result.offset ≡ self.now.offset) × (result.m ≡ self.now.m) × (result.n ≡ self.now.n) }
    {
        let Filled {
            source,
            target,
            offset,
            m,
            n,
            ..
        } = *self;
        Rules {
            source,
            target,
            offset,
            m,
            n,
        }
    }
}
