// The credits of the five shapers: what they lack, and what is charged to them; and how a client frame goes into the stage, which they decide.
#![tactic(auto)]

ghost use Rattle.std.specs.Prelude.{◌≡◌, true, [], ◌∷◌};
ghost use Rattle.decide.specs.Test.{test};
ghost use Rattle.credits.specs.Which.{bucket_of, credit_of, with_credit, permits_of, permits_all, sends, fed};
ghost use Rattle.credits.specs.Short.{short_of, short_all};
ghost use Rattle.credits.specs.Range.{credits_ok};
ghost use Rattle.credits.specs.Way.{needs_of, mark_of, way_of};

use settings::{Bucket, Settings};
use shaper::Shaper;

// Class A.
pub const CLASS_A: u32 = 0;

// Class B.
const CLASS_B: u32 = 1;

// The mark of an eligible frame.
pub const MARKED: u32 = 1;

// The credits of the five shapers: M (control), A, B, C, D (downstream).
#[derive(Clone, Copy)]
pub struct Credits {
    pub m: u32,
    pub a: u32,
    pub b: u32,
    pub c: u32,
    pub d: u32,
}

// Which shaper.
#[derive(Clone, Copy)]
pub enum Which {
    M,
    A,
    B,
    C,
    D,
}

// How a client frame goes into the stage: as A, as B within its own rate, or as excess.
#[derive(Clone, Copy)]
pub enum Way {
    ClassA,
    ClassB,
    Excess,
}

impl Credits {
    // Whether each credit is at most its hiLimit.
    pub fn in_range(self, settings: Settings) -> bool
        ensures { result ≡ test (credits_ok settings self) }
    {
        let shapers = settings.shapers;
        (self.m <= shapers.m.hi)
            & (self.a <= shapers.a.hi)
            & (self.b <= shapers.b.hi)
            & (self.c <= shapers.c.hi)
            & (self.d <= shapers.d.hi)
    }

    // How far short a shaper is of permitting a send, 0 where it permits.
    fn short(self, settings: Settings, which: Which) -> u64
        ensures { result ≡ short_of settings self which }
    {
        let bucket = which.bucket(settings);
        shaper::ask(self.credit(which), bucket.lo)
    }

    // The credits after a send of this size is charged to a shaper that permits it.
    pub fn charge(self, settings: Settings, which: Which, size: u32) -> Credits
        requires { permits_of settings self which ≡ true }
        ensures { result ≡ fed settings self (sends (which ∷ []) size) }
    {
        let bucket = which.bucket(settings);
        let before = Shaper {
            limits: bucket.limits(settings.mtu),
            credit: self.credit(which),
        };
        let after = before.charge(size).unwrap();
        self.with_credit(which, after.credit)
    }

    // The credit of a shaper.
    fn credit(self, which: Which) -> u32
        ensures { result ≡ credit_of self which }
    {
        match which {
            Which::M => self.m,
            Which::A => self.a,
            Which::B => self.b,
            Which::C => self.c,
            Which::D => self.d,
        }
    }

    // The credits with that of one shaper anew.
    fn with_credit(self, which: Which, credit: u32) -> Credits
        ensures { result ≡ with_credit self which credit }
    {
        match which {
            Which::M => Credits { m: credit, ..self },
            Which::A => Credits { a: credit, ..self },
            Which::B => Credits { b: credit, ..self },
            Which::C => Credits { c: credit, ..self },
            Which::D => Credits { d: credit, ..self },
        }
    }

    // How a client frame of this class goes in. The class is a number and no enum: `way_of` says of every number how it goes, and a host may give any.
    pub fn way(self, settings: Settings, class: u32) -> Way
        ensures { result ≡ way_of settings self class }
    {
        if class == CLASS_A {
            return Way::ClassA;
        }
        if (class == CLASS_B) & (self.short_all(settings, Way::ClassB) == 0) {
            return Way::ClassB;
        }
        Way::Excess
    }

    // How far short the shapers are that a way needs, where there are two the larger; 0 where each permits.
    pub fn short_all(self, settings: Settings, way: Way) -> u64
        ensures { result ≡ short_all settings self (needs_of way) }
    {
        match way {
            Way::ClassA => self.short(settings, Which::A),
            Way::ClassB => self.short_of_two(settings, Which::B, Which::D),
            Way::Excess => self.short_of_two(settings, Which::C, Which::D),
        }
    }

    // How far short two shapers are: the larger shortfall.
    fn short_of_two(self, settings: Settings, one: Which, other: Which) -> u64
        ensures { result ≡ short_all settings self (one ∷ other ∷ []) }
    {
        decide::larger(self.short(settings, one), self.short(settings, other))
    }

    // The credits after a frame of this size is charged to every shaper that its way needs, and that permits it.
    pub fn pay(self, settings: Settings, way: Way, size: u32) -> Credits
        requires { permits_all settings self (needs_of way) ≡ true }
        ensures { result ≡ fed settings self (sends (needs_of way) size) }
    {
        match way {
            Way::ClassA => self.charge(settings, Which::A, size),
            Way::ClassB => {
                let left = self.charge(settings, Which::B, size);
                left.charge(settings, Which::D, size)
            }
            Way::Excess => {
                let left = self.charge(settings, Which::C, size);
                left.charge(settings, Which::D, size)
            }
        }
    }
}

impl Which {
    // The settings of a shaper.
    fn bucket(self, settings: Settings) -> Bucket
        ensures { result ≡ bucket_of settings self }
    {
        let shapers = settings.shapers;
        match self {
            Which::M => shapers.m,
            Which::A => shapers.a,
            Which::B => shapers.b,
            Which::C => shapers.c,
            Which::D => shapers.d,
        }
    }
}

impl Way {
    // The mark of a frame that goes this way.
    pub fn mark(self) -> u32
        ensures { result ≡ mark_of self }
    {
        match self {
            Way::ClassA | Way::ClassB => 0,
            Way::Excess => MARKED,
        }
    }
}
