// A rule: every one that exists is lawful.
ghost use Rattle.std.specs.Prelude.{◌≡◌, true, is_ok};
ghost use Rattle.entries.specs.Heads.{heads};
ghost use Rattle.rules.specs.Assemble.{assemble};
ghost use Rattle.rules.specs.Lines.{listed};
ghost use Rattle.rules.specs.Nodes.{Noded};
ghost use Rattle.rules.specs.Spans.{Spanned};
ghost use Rattle.rules.specs.Standing.{Read, Needed, Tested};

use crate::lines::Lines;
use entries::HeadSet;

// A rule: its entries and its zone, with what a watch asks of it again and again.
#[derive(Clone, Copy)]
pub struct Rule {
    pub(crate) lines: Lines,
    pub(crate) zone: HeadSet,
    pub(crate) reads: HeadSet,
    pub(crate) tests_zone: bool,
    pub(crate) need: usize,
    ghost lawful: { is_ok (assemble (heads zone.bits) (listed lines)) ≡ true },
    ghost known: { Spanned (heads zone.bits) (listed lines) lines.rows lines.count },
    ghost noded: { Noded (heads zone.bits) (listed lines) lines.rows lines.count },
    ghost read: { Read (heads zone.bits) (listed lines) (heads reads.bits) },
    ghost tested: { Tested (heads zone.bits) (listed lines) tests_zone },
    ghost needed: { Needed (heads zone.bits) (listed lines) need },
}
