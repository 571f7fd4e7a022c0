// Where a picture has its polls and margins.
ghost use Rattle.std.specs.Prelude.{◌<◌, ◌≡◌};
ghost use Rattle.desk.specs.Frames.{down_at, fall_by, framed, height_of, right_at, rise_by};
ghost use Rattle.desk.specs.Ticks.{level_steps, margin_step_of, poll_step_of, step_in};

use crate::amount::Unit;

// The size of the picture, and of the margins around what is drawn.
pub(crate) const WIDTH: u64 = 1000;

pub(crate) const HEIGHT: u64 = 480;

pub(crate) const LEFT: u64 = 100;

pub(crate) const HEADING: u64 = 52;

pub(crate) const TOP: u64 = 70;

pub(crate) const RIGHT: u64 = 970;

pub(crate) const BOTTOM: u64 = 420;

// The most columns that are drawn.
pub(crate) const COLUMNS: u32 = 870;

// About so many ticks are on an axis.
const TICKS: u64 = 7;

// Steps between ticks that read well.
const ROUND: [u32; 21] = [
    1, 2, 5, 10, 20, 50, 100, 200, 500, 1_000, 2_000, 5_000, 10_000, 20_000, 50_000, 100_000,
    200_000, 500_000, 1_000_000, 2_000_000, 5_000_000,
];

// The same in 256ths: powers of two, whose decimals are short.
const HALVED: [u32; 21] = [
    1, 2, 4, 8, 16, 32, 64, 128, 256, 512, 1_024, 2_048, 4_096, 8_192, 16_384, 32_768, 65_536,
    131_072, 262_144, 524_288, 1_048_576,
];

// The least of the steps with few enough ticks over a span.
fn step_of(steps: &[u32], span: u64) -> u32
    ensures some { 0 < result }
    ensures step { result ≡ step_in steps.now span }
{
    for step in steps {
        if span <= *step as u64 * TICKS {
            return (*step).max(1);
        }
    }
    u32::MAX
}

// How far apart the ticks of so many polls are.
pub(crate) fn poll_step(polls: u32) -> u32
    ensures some { 0 < result }
    ensures step { result ≡ poll_step_of polls }
{
    step_of(&ROUND, polls as u64)
}

// How many steps a line of the margins is at, above nought or below.
pub(crate) fn level_at(step: u32, below: bool, at: u32) -> i32
    ensures { result ≡ level_steps step below at }
{
    let size = at
        .saturating_add(1)
        .saturating_mul(step)
        .min(i32::MAX as u32) as i32;
    if below { -size } else { size }
}

// How far a margin is above nought.
pub(crate) fn rise(margin: i32) -> u32
    ensures { result ≡ rise_by margin }
{
    margin.max(0).unsigned_abs()
}

// How far a margin is below nought.
pub(crate) fn fall(margin: i32) -> u32
    ensures { result ≡ fall_by margin }
{
    margin.min(0).unsigned_abs()
}

// What the picture shows: so many polls, and margins so far above and below nought.
#[derive(Clone, Copy)]
pub(crate) struct Frame {
    pub polls: u32,
    pub above: u32,
    pub below: u32,
}

impl Frame {
    // The frame of so many polls and margins, which is a step high at least.
    pub(crate) fn of(polls: u32, above: u32, below: u32) -> Frame
        ensures { result ≡ framed polls above below }
    {
        let flat = above == 0 && below == 0;
        let above = if flat { 1 } else { above };
        Frame {
            polls,
            above,
            below,
        }
    }

    // Where a poll stands from the left; one past the last stands where the last does.
    pub(crate) fn x(&self, poll: u32) -> u64
        ensures { result ≡ right_at self.now.polls poll }
    {
        let last = self.polls.saturating_sub(1).max(1);
        LEFT + poll.min(last) as u64 * (RIGHT - LEFT) / last as u64
    }

    // How many steps the picture is high.
    fn span(&self) -> u64
        ensures some { 0 < result }
        ensures height { result ≡ height_of self.now }
    {
        (self.above as u64 + self.below as u64).max(1)
    }

    // Where a margin of so many steps stands from the top.
    pub(crate) fn y(&self, steps: i32) -> u64
        ensures { result ≡ down_at self.now steps }
    {
        let down = (self.above as i64 - steps as i64).max(0) as u64;
        TOP + down * (BOTTOM - TOP) / self.span()
    }

    // How far apart the ticks of the margins are, in steps.
    pub(crate) fn margin_step(&self, unit: Unit) -> u32
        ensures some { 0 < result }
        ensures step { result ≡ margin_step_of unit (height_of self.now) }
    {
        match unit {
            Unit::Count => step_of(&ROUND, self.span()),
            Unit::PercentPerMetre => step_of(&HALVED, self.span()),
        }
    }
}
