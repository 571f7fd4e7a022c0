// A row that a rule's entries take.
ghost use Rattle.std.specs.Prelude.{◌≡◌, ◌+◌, ◌≤◌, length, is_some};
ghost use Rattle.std.specs.Option.{option_map};
ghost use Rattle.std.specs.List.{All};
ghost use Rattle.layout.specs.Shape.{shape, Seen};
ghost use Rattle.layout.specs.Steps.{row_at, row_test, AllTested, Zoned};

use crate::taken::Rows;
use records::Record;
use rules::Rule;
use runs::pick;
use scales::{Scale, Test};

// One poll of a record as a row, where so many rows were taken, for a rule on a scale. It has the record itself, which is a
// view: of a record that it borrowed, a compiler would ask again after every write to a cell.
#[derive(Drop)]
pub(crate) struct Row<'a, S, R> {
    pub(crate) scale: &'a S,
    pub(crate) rule: &'a Rule,
    pub(crate) record: R,
    pub(crate) poll: u32,
    pub(crate) rows: Rows,
    ghost fits: { rows.ring ≡ (shape rule.now).ring },
}

impl<'a, S: Scale, R: Record<Reading = S::Reading>> Row<'a, S, R> {
    // The test of one head; none where its reading is missing or unlawful.
    pub(crate) fn test(&self, head: u8, test: Test) -> Option<S::Margin>
        ensures { option_map (S.Scale.model self.now.scale.now).whole result ≡ row_test (S.Scale.model self.now.scale.now) ((R.Record.model self.now.record).at head self.now.poll) test.sense test.limit.value }
    {
        let reading = self.record.reading(head as u32, self.poll)?;
        self.scale.test(reading, test)
    }

    // Writes the tests of the zone's heads into as many cells; none where a head has no test. By place: what is written through
    // a `zip` of `iter_mut` is not known afterwards.
    fn test_heads(&self, test: Test, cells: &mut [S::Margin]) -> Option<()>
        requires heads { All (Seen (shape self.now.rule.now)) (shape self.now.rule.now).zone }
        requires long { length cells.old ≡ length (shape self.now.rule.now).zone }
        ensures { AllTested (S.Scale.model self.now.scale.now) (shape self.now.rule.now) (row_at (R.Record.model self.now.record) self.now.poll) test.sense test.limit.value cells.new (is_some result) }
    {
        for (place, head) in self.rule.zone().iter().enumerate() {
            cells[place] = self.test(head, test)?;
        }
        Some(())
    }

    // The K-th highest of the tests of the zone's heads, which are written into the cells from a place on.
    pub(crate) fn zone_margin(
        &self,
        k: usize,
        test: Test,
        from: usize,
        cells: &mut [S::Margin],
    ) -> Option<S::Margin>
        requires heads { All (Seen (shape self.now.rule.now)) (shape self.now.rule.now).zone }
        requires rank { (1 ≤ k) × (k ≤ length (shape self.now.rule.now).zone) }
        requires room { from + length (shape self.now.rule.now).zone ≤ length cells.old }
        ensures { Zoned (S.Scale.model self.now.scale.now) (shape self.now.rule.now) (row_at (R.Record.model self.now.record) self.now.poll) k test.sense test.limit.value from cells.old cells.new result }
    {
        let to = from + self.rule.zone().size();
        let tests = &mut cells[from..to];
        self.test_heads(test, tests)?;
        pick(self.scale, tests, k)
    }
}
