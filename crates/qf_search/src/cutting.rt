// Where a box is cut.

ghost use Rattle.std.specs.Prelude.{◌≡◌, ◌+◌, ◌-◌, ◌<◌, ◌≤ℤ◌, ◌<ℤ◌, ◌+ℤ◌, ◌-ℤ◌, pos, true, false, unsigned_abs, length, IfSome, IfNone};
ghost use Rattle.qf_base.specs.Values.{interval_at};
ghost use Rattle.qf_point.specs.Points.{HasNoEmpty, CanCut};
ghost use Rattle.qf_search.specs.Deciding.{IsOnePoint};

use qf_base::PBox;

// How many steps lead through an interval.
fn width(interval: (i64, i64)) -> u64
    ensures { result ≡ unsigned_abs (interval.1 -ℤ interval.0) }
{
    interval.1.abs_diff(interval.0)
}

// Whether an interval is wider, as a part of the whole one, than another one as a part of its own whole one.
fn is_wider(width: u64, whole: u64, most: u64, most_whole: u64) -> bool
    ensures wide { result ≡ true → 0 < width }
    ensures none { most ≡ 0 → most_whole ≡ 1 → result ≡ false → width ≡ 0 }
{
    u128::from(width) * u128::from(most_whole) > u128::from(most) * u128::from(whole)
}

// The place of the interval that is widest as a part of the root box's, the first of them, unless each has one value.
fn widest(region: &PBox, root: &PBox) -> Option<u32>
    requires spans { HasNoEmpty region.now }
    requires root { length root.now ≡ length region.now }
    ensures within { IfSome result (λ place. place < length region.now) }
    ensures wide { IfSome result (λ place. (interval_at region.now place).0 <ℤ (interval_at region.now place).1) }
    ensures none { IfNone result (IsOnePoint region.now) }
{
    let mut most = 0;
    let mut most_whole = 1;
    let mut widest = None;
    for place in 0..region.len() {
        let own = width(region.get(place));
        let whole = width(root.get(place));
        if is_wider(own, whole, most, most_whole) {
            most = own;
            most_whole = whole;
            widest = Some(place);
        }
    }
    widest
}

fn nearest(value: i64, lo: i64, hi: i64) -> i64
    requires { lo ≤ℤ hi }
    ensures low { lo ≤ℤ result }
    ensures high { result ≤ℤ hi }
{
    value.clamp(lo, hi)
}

fn steps_above(near: i64, hi: i64, steps: u64) -> i64
    requires { (near +ℤ pos steps) ≤ℤ hi }
    ensures { result ≡ near +ℤ pos steps }
{
    (i128::from(near) + i128::from(steps)) as i64
}

fn steps_below(lo: i64, near: i64, steps: u64) -> i64
    requires { (lo +ℤ pos steps) ≤ℤ near }
    ensures { result ≡ near -ℤ pos steps }
{
    (i128::from(near) - i128::from(steps)) as i64
}

// A cut of an interval, halfway between its value that is nearest to the old constant and the end that is farther from that.
fn halfway(lo: i64, hi: i64, old: i64) -> i64
    requires { lo <ℤ hi }
    ensures low { lo ≤ℤ result }
    ensures high { result <ℤ hi }
{
    let near = nearest(old, lo, hi);
    let below = width((lo, near));
    let above = width((near, hi));
    if below > above {
        steps_below(lo, near, (below - 1) / 2 + 1)
    } else {
        steps_above(near, hi, above / 2)
    }
}

/// Whether a box may be cut so: the parameter, from 1, has values up to the cut and values above it there.
pub fn cuts(region: &PBox, param: u32, cut: i64) -> bool
    ensures { result ≡ true → ((0 < param) × CanCut region.now (param - 1) cut) }
{
    if param == 0 || param > region.len() {
        return false;
    }
    let (lo, hi) = region.get(param - 1);
    lo <= cut && cut < hi
}

/// A cut of a box: the number of a parameter, from 1, and a value of it. It is the parameter whose interval is widest as a
/// part of its domain, the first of them, so that each takes its turn. It is cut halfway between the cheapest value and the
/// end that is farther off: the half with the cheapest point becomes small in a number of cuts that grows with the number of
/// a domain's digits alone, and the other half's key is as far off as it can be, so that it comes up late or never. None comes
/// exactly where the box is one point.
pub fn cut_of(olds: &[i64], region: &PBox, root: &PBox) -> Option<(u32, i64)>
    requires spans { HasNoEmpty region.now }
    requires olds { length olds.now ≡ length region.now }
    requires root { length root.now ≡ length region.now }
    ensures first { IfSome result (λ cut. 0 < cut.0) }
    ensures cuts { IfSome result (λ cut. CanCut region.now (cut.0 - 1) cut.1) }
    ensures wide { IfSome result (λ cut. (interval_at region.now (cut.0 - 1)).0 <ℤ (interval_at region.now (cut.0 - 1)).1) }
    ensures none { IfNone result (IsOnePoint region.now) }
{
    let _params = region.len();
    match widest(region, root) {
        Some(place) => {
            let (lo, hi) = region.get(place);
            Some((place + 1, halfway(lo, hi, olds[place as usize])))
        }
        None => None,
    }
}
