// Which numbers of a list add up to a number.

use qf_base::NoMemory;
use std::alloc::Global;

// So many steps are taken.
const MOST_TURNS: u32 = 2000;

// For each place the sum of the numbers before it, those of one sign alone.
fn sums_before(alloc: Global, numbers: &[i64], positive: bool) -> Result<Vec<i64>, NoMemory> {
    let mut sums = Vec::new(alloc);
    let mut sum: i64 = 0;
    sums.push(sum)?;
    for number in numbers {
        if (*number > 0) == positive {
            sum = sum.saturating_add(*number);
        }
        sums.push(sum)?;
    }
    Ok(sums)
}

fn at(numbers: &[i64], place: usize) -> i64 {
    if place < numbers.len() {
        numbers[place]
    } else {
        0
    }
}

// What those sums add up to from a place on.
fn rest(sums: &[i64], place: usize, count: usize) -> i64 {
    at(sums, count).saturating_sub(at(sums, place))
}

fn choose(chosen: &mut Vec<bool>, place: usize, is_chosen: bool) {
    if place < chosen.len() {
        chosen[place] = is_chosen;
    }
}

// The last chosen place before this one.
fn last_chosen(chosen: &[bool], before: usize) -> Option<usize> {
    let mut last = None;
    for place in 0..chosen.len() {
        if place < before && chosen[place] {
            last = Some(place);
        }
    }
    last
}

/// Marks of numbers that add up to a sum, as far as they are found in a limited number of steps: each number is taken, where
/// those after it could still make up the rest, and later left out.
pub fn chosen_sum(alloc: Global, numbers: &[i64], sum: i64) -> Result<Option<Vec<bool>>, NoMemory> {
    let count = numbers.len();
    let lows = sums_before(alloc, numbers, false)?;
    let highs = sums_before(alloc, numbers, true)?;
    let mut chosen = vec![in alloc; false; count]?;
    let mut place = 0;
    let mut left = sum;
    for _turn in 0..MOST_TURNS {
        if left == 0 {
            return Ok(Some(chosen));
        }
        let may_be = rest(lows.as_slice(), place, count) <= left
            && left <= rest(highs.as_slice(), place, count);
        if place < count && may_be {
            choose(&mut chosen, place, true);
            left = left.saturating_sub(at(numbers, place));
            place += 1;
        } else {
            let Some(last) = last_chosen(chosen.as_slice(), place) else {
                return Ok(None);
            };
            choose(&mut chosen, last, false);
            left = left.saturating_add(at(numbers, last));
            place = last.saturating_add(1);
        }
    }
    Ok(None)
}
