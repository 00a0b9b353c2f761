// The written ranges of a file, each a place and a number of bytes.

ghost use Rattle.std.specs.Prelude.{ℕ, ◌≡◌, ◌+◌, ◌^◌, ◌<◌, ◌∷◌, ◌&&◌, IfSome, vec_len, vec_capacity};
ghost use Rattle.fit_disk.specs.Cycle.{is_beside, is_outside};

// Adds a range. There is room for it. If it begins within the last range or right at its end, the two are
// joined: writes one after another are one range.
#[tactic(auto, using(crate::proofs::Joining::outside_push, crate::proofs::Joining::outside_joined))]
pub(crate) fn add_range(ranges: &mut Vec<(usize, usize)>, at: usize, count: usize)
    requires room { vec_len ranges.old < vec_capacity ranges.old }
    requires fits { at + count < 2 ^ 64 }
    ensures { (place : ℕ)
        → is_outside place ranges.new.items ≡ is_outside place ((at, count) ∷ ranges.old.items) }
{
    let range = (at, count);
    let Some(last) = ranges.pop() else {
        ranges.push_reserved(range);
        return;
    };
    match joined(last, range) {
        Some(both) => ranges.push_reserved(both),
        None => {
            ranges.push_reserved(last);
            ranges.push_reserved(range);
        }
    }
}

// Both ranges as one, if the second begins within the first or right at its end.
fn joined(first: (usize, usize), second: (usize, usize)) -> Option<(usize, usize)>
    requires { second.0 + second.1 < 2 ^ 64 }
    ensures { IfSome result (λ both.
        (place : ℕ) → is_beside place both ≡ (is_beside place second && is_beside place first)) }
{
    let (first_at, first_count) = first;
    let (at, count) = second;
    if at < first_at || at - first_at > first_count {
        return None;
    }
    Some((first_at, first_count.max(at - first_at + count)))
}
