// The K-th highest of margins in any order.
ghost use Rattle.std.specs.Prelude.{◌≡◌, Bool, false, count_by, map};
ghost use Rattle.std.specs.Option.{option_map};
ghost use Rattle.runs.specs.Highest.{above, at_least};
ghost use Rattle.runs.specs.Laws.{KthHighest};
ghost use Rattle.runs.specs.Bounds.{Outside};

use scales::Scale;

// How many of the margins pass. Loops, since `filter` and `count` take almost three times as long on 64 margins, and in 32 bits
// as far as these reach, since twice as many margins are then counted at once.
fn counted<M: Copy, F: Fn(M) -> bool>(margins: &[M], passes: F) -> usize
    requires { F.IsAlwaysCallable passes }
    ensures { (p : M → Bool) → ((x : M) (b : Bool) → F.post passes x b → b ≡ p x) → result ≡ count_by p margins.now }
{
    let front = margins.len().min(u32::MAX as usize);
    let mut few = 0u32;
    for x in &margins[..front] {
        few += u32::from(passes(*x));
    }
    let mut n = few as usize;
    for x in &margins[front..] {
        n += usize::from(passes(*x));
    }
    n
}

// How many of the margins exceed m.
fn exceeding<S: Scale>(scale: &S, margins: &[S::Margin], m: S::Margin) -> usize
    ensures { result ≡ above ((S.Scale.model scale.now).whole m) (map (S.Scale.model scale.now).whole margins.now) }
{
    counted(margins, |x| scale.exceeds(x, m))
}

// How many of the margins reach m.
fn reaching<S: Scale>(scale: &S, margins: &[S::Margin], m: S::Margin) -> usize
    ensures { result ≡ at_least ((S.Scale.model scale.now).whole m) (map (S.Scale.model scale.now).whole margins.now) }
{
    counted(margins, |x| !scale.exceeds(m, x))
}

// Whether a margin lies above one and below another, as far as these are known.
fn is_between<S: Scale>(
    scale: &S,
    low: Option<S::Margin>,
    high: Option<S::Margin>,
    m: S::Margin,
) -> bool
    ensures { result ≡ false → Outside (S.Scale.model scale.now).whole low high m }
{
    low.is_none_or(|l| scale.exceeds(m, l)) && high.is_none_or(|h| scale.exceeds(h, m))
}

// The K-th highest of the margins; none if K is 0 or above their number. Each margin tried that is not the one bounds where
// it lies, so few of them are counted for.
pub fn pick<S: Scale>(scale: &S, margins: &[S::Margin], k: usize) -> Option<S::Margin>
    ensures { KthHighest k (map (S.Scale.model scale.now).whole margins.now) (option_map (S.Scale.model scale.now).whole result) }
{
    let mut low = None;
    let mut high = None;
    for x in margins {
        let m = *x;
        if !is_between(scale, low, high, m) {
            continue;
        }
        if k <= exceeding(scale, margins, m) {
            low = Some(m);
        } else if reaching(scale, margins, m) < k {
            high = Some(m);
        } else {
            return Some(m);
        }
    }
    None
}
