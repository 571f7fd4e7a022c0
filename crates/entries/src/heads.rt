// Sets of heads.
ghost use Rattle.std.specs.Prelude.{◌≡◌, ◌^◌, ◌<◌, ◌≤◌, [], ◌∷◌, ◌++◌, length, MatchOption, bit_or};
ghost use Rattle.formulas.specs.Formula.{among};
ghost use Rattle.entries.specs.Heads.{head_total, heads as heads_of, SameHeads, SomeAbove, first_from, Rising};

// Heads are numbered from 0 to one below this.
pub const HEADS: u8 = 64;

// A set of heads, one bit for each.
#[derive(Clone, Copy, PartialEq, Eq, Debug)]
pub struct HeadSet {
    bits: u64,
    ghost few: { bits < 2 ^ head_total },
}

impl HeadSet {
    // No head.
    #[tactic(auto, unfolding(crate::specs::Heads::heads, crate::specs::Heads::heads_below))]
    pub const fn empty() -> HeadSet
        ensures { heads_of result.bits ≡ [] }
    {
        HeadSet { bits: 0 }
    }

    // The zone of the starting rule: head 0 alone. Const as `empty` is, so a literal and not `empty` with a head.
    #[tactic(auto, unfolding(crate::specs::Heads::heads, crate::specs::Heads::heads_below))]
    pub const fn starting() -> HeadSet
        ensures { heads_of result.bits ≡ 0 ∷ [] }
    {
        HeadSet { bits: 1 }
    }

    // The set of the heads whose bits are set.
    #[tactic(auto, unfolding(crate::specs::Heads::head_total))]
    pub fn of_bits(bits: u64) -> HeadSet
        ensures { result.bits ≡ bits }
    {
        HeadSet { bits }
    }

    // The set with one head more; none where there is no such head.
    #[tactic(auto, using(crate::proofs::Adding::fits, crate::proofs::Adding::added))]
    pub fn with(self, head: u8) -> Option<HeadSet>
        ensures { MatchOption result (head_total ≤ head) (λ s. SameHeads (heads_of s.bits) (head ∷ heads_of self.bits)) }
    {
        // A guard: made in the closure of a `then`, the set's invariant stays open.
        if head >= HEADS {
            return None;
        }
        Some(HeadSet {
            bits: self.bits | 1 << head,
        })
    }

    // The heads of either set.
    #[tactic(auto, using(crate::proofs::Adding::both_fit, crate::proofs::Adding::united))]
    pub fn union(self, other: HeadSet) -> HeadSet
        ensures { SameHeads (heads_of result.bits) (heads_of self.bits ++ heads_of other.bits) }
    {
        HeadSet {
            bits: self.bits | other.bits,
        }
    }

    // The set of the heads in a list; none where one of them is no head.
    pub fn of(heads: &[u8]) -> Option<HeadSet>
        ensures { MatchOption result (SomeAbove heads.now) (λ s. SameHeads (heads_of s.bits) heads.now) }
    {
        let mut set = HeadSet::empty();
        for head in heads {
            set = set.with(*head)?;
        }
        Some(set)
    }

    // Whether a head is in the set.
    #[tactic(auto, using(crate::proofs::Listing::bit_tells, crate::proofs::Listing::none_past))]
    pub fn contains(self, head: u8) -> bool
        ensures { result ≡ among head (heads_of self.bits) }
    {
        head < HEADS && (self.bits >> head) & 1 == 1
    }

    // How many heads it has.
    #[tactic(auto, using(crate::proofs::Bits::ones_size))]
    pub fn size(self) -> usize
        ensures { result ≡ length (heads_of self.bits) }
    {
        self.bits.count_ones() as usize
    }

    // The first head at or after one, so that all are met in rising order; none where no more is in the set.
    #[tactic(auto, using(crate::proofs::Digits::next_is, crate::proofs::Digits::next_past, crate::proofs::Listing::rising))]
    pub fn next(self, from: u8) -> Option<u8>
        ensures value { result ≡ first_from from (heads_of self.bits) }
        ensures rising { Rising (heads_of self.bits) }
    {
        if from >= HEADS {
            return None;
        }
        let ahead = (self.bits >> from).trailing_zeros();
        (ahead < u64::BITS).then_some(from + ahead as u8)
    }

    // Its lowest head and the set of the others; none where it has no head.
    #[tactic(auto, using(crate::proofs::Walking::no_heads, crate::proofs::Walking::first_head, crate::proofs::Walking::fewer_fit))]
    pub(crate) fn split_first(self) -> Option<(u8, HeadSet)>
        ensures { MatchOption result (heads_of self.bits ≡ []) (λ s. heads_of self.bits ≡ s.0 ∷ heads_of s.1.bits) }
    {
        if self.bits == 0 {
            return None;
        }
        let others = HeadSet {
            bits: self.bits & (self.bits - 1),
        };
        Some((self.bits.trailing_zeros() as u8, others))
    }
}
