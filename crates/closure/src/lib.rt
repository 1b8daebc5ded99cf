// Cost entries replaced by the least sums over the ways to split their positions (document 02, U7).

#![tactic(auto)]

ghost use Rattle.std.specs.Prelude.{◌≡◌, ◌++◌, ℕ, suc, ◌+◌, ◌-◌, ◌<◌, ◌≤◌, take, drop};
ghost use Rattle.numbers.specs.Numbers.{entry_places};
ghost use Rattle.ranges.specs.Least.{smallest};
ghost use Rattle.curves.specs.Cost.{entry};
ghost use Rattle.closure.specs.Closure.{closed as closed_of};

// The least sum over the ways to split position k + 1, of the entries and of the least sums of the positions before it. Two entries may pass
// 65,535 and are added in 32 bits; the result is at most an entry.
fn least_sum(entries: [u16; 8], sums: [u16; 8], k: u8) -> u16
    requires { k < entry_places }
    ensures { result ≡ smallest (entry entries (suc k)) k (λ j. entry entries (suc j) + entry sums (k - j)) }
{
    let mut best = entries[k as usize] as u32;
    for j in 0..k {
        let sum = entries[j as usize] as u32 + sums[(k - j - 1) as usize] as u32;
        best = best.min(sum);
    }
    best as u16
}

// The entries with each of the first `used` replaced by the least sum over the ways to split its position; the others as they are.
// Eight places and how many of them are used, where a slice of those used would do for the sums: the clause also says what becomes of the others.
pub fn closed(entries: [u16; 8], used: u8) -> [u16; 8]
    requires { used ≤ entry_places }
    ensures { result ≡ closed_of (take used entries) ++ drop used entries }
{
    let mut sums = entries;
    for k in 0..used {
        sums[k as usize] = least_sum(entries, sums, k);
    }
    sums
}
