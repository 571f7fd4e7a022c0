// Random numbers from a fixed seed, so that every run tries the same.
ghost use Rattle.std.specs.Prelude.{◌<◌, ◌≤◌, max};

// A generator of the family splitmix: its state goes up by an odd number, and what it gives is the state, mixed.
#[derive(Clone, Copy)]
pub struct Random {
    state: u64,
}

impl Random {
    pub fn new(seed: u64) -> Random {
        Random { state: seed }
    }

    pub fn next(&mut self) -> u64 {
        self.state = self.state.wrapping_add(0x9e37_79b9_7f4a_7c15);
        let first = (self.state ^ (self.state >> 30)).wrapping_mul(0xbf58_476d_1ce4_e5b9);
        let second = (first ^ (first >> 27)).wrapping_mul(0x94d0_49bb_1331_11eb);
        second ^ (second >> 31)
    }

    // A number below another; 0 below 0.
    pub fn below(&mut self, end: u64) -> u64
        ensures { result < max end 1 }
    {
        if end == 0 {
            return 0;
        }
        self.next() % end
    }

    // A number from the least to the most, or the least where that is above the most.
    pub fn between(&mut self, least: i64, most: i64) -> i64 {
        let width = most.saturating_sub(least).saturating_add(1);
        let above = self.below(width.max(0).unsigned_abs());
        least.saturating_add_unsigned(above)
    }

    // A place in a list of so many.
    pub fn place(&mut self, length: usize) -> usize {
        self.below(length as u64) as usize
    }

    pub fn byte(&mut self, end: u8) -> u8 {
        self.below(end as u64) as u8
    }

    pub fn short(&mut self, end: u16) -> u16 {
        self.below(end as u64) as u16
    }

    pub fn word(&mut self, end: u32) -> u32 {
        self.below(end as u64) as u32
    }

    // True once in so many times.
    pub fn once_in(&mut self, times: u64) -> bool {
        self.below(times) == 0
    }

    // One of a list.
    pub fn one_of<T: Copy>(&mut self, list: &[T]) -> Option<T> {
        list.get(self.place(list.len())).copied()
    }
}
