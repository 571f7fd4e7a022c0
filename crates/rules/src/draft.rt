// A list of entries in a zone, on the way to a rule.
ghost use Rattle.std.specs.Prelude.{◌≤◌, length};
ghost use Rattle.entries.specs.Heads.{heads};
ghost use Rattle.rules.specs.declared.sizes.TheConstants.{ENTRIES, ZONE_HEADS};

use entries::{Entry, HeadSet};

// As many entries as a rule has, in a zone of as many heads.
#[derive(Clone, Copy)]
pub(crate) struct Draft<'a> {
    pub(crate) entries: &'a [Entry],
    pub(crate) zone: HeadSet,
    ghost some: { 1 ≤ length entries.now },
    ghost few: { length entries.now ≤ ENTRIES },
    ghost some_heads: { 1 ≤ length (heads zone.bits) },
    ghost few_heads: { length (heads zone.bits) ≤ ZONE_HEADS },
}
