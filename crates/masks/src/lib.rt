// Masks of sixteen bits, one bit for each callback of a table: slot i, counted from 0, is callback i + 1.
// A slot is tested, set and cleared by shifts and masks; the slots are counted by the count of ones, and the first is found by
// trailing zeros. What each function gives back is set out by arithmetic in specs.

#![tactic(auto)]

ghost use Rattle.std.specs.Prelude.{◌≡◌, ℕ, ◌<◌, ◌≤◌, ◌-◌, ◌^◌};
ghost use Rattle.masks.specs.Mask.{has, with_bit, without_bit, count_of};
ghost use Rattle.std.specs.Iterator.{at_most};
ghost use Rattle.masks.specs.Parts.{except, first_of, first_index, some_index, takes_lowest};

// Whether the mask has the slot. That a slot is below 16 is a clause here and elsewhere and no type's: callers count slots as numbers, and a narrower type
// would ask more of them.
pub fn test_slot(mask: u16, slot: u16) -> bool
    requires { slot < 16 }
    ensures { result ≡ has mask slot }
{
    mask & (1 << slot) != 0
}

// The mask with the slot in it, whether it was there or not.
pub fn set_slot(mask: u16, slot: u16) -> u16
    requires { slot < 16 }
    ensures { result ≡ with_bit mask slot }
{
    mask | (1 << slot)
}

// The mask without the slot, whether it was there or not.
pub fn clear_slot(mask: u16, slot: u16) -> u16
    requires { slot < 16 }
    ensures { result ≡ without_bit mask slot }
{
    mask & !(1 << slot)
}

// How many slots the mask has, 0 to 16.
pub fn count(mask: u16) -> u32
    ensures { result ≡ count_of 16 mask }
{
    mask.count_ones()
}

// The lowest slot that the mask has, 16 where it has none: the count of trailing zeros, as it is. `lowest_index` is the one with an Option.
pub fn first(mask: u16) -> u32
    ensures { result ≡ first_of mask }
{
    mask.trailing_zeros()
}

// The lowest slot of a mask that has one.
pub fn lowest(mask: u16) -> u16
    requires { mask ≡ 0 → ⊥ }
    ensures { (result ≡ first_of mask) × (result < 16) }
{
    first(mask) as u16
}

// The lowest slot of the mask as an index.
pub fn lowest_index(mask: u16) -> Option<u8>
    ensures { result ≡ some_index (first_index mask) }
{
    if mask == 0 {
        return None;
    }
    Some(lowest(mask) as u8 + 1)
}

// The slots of a mask that are not in another.
pub fn outside(mask: u16, other: u16) -> u16
    ensures { result ≡ except mask other }
{
    mask & !other
}

// The slots below n that the mask does not have.
pub fn others(n: u8, mask: u16) -> u16
    requires { n ≤ 16 }
    ensures { result ≡ except (2 ^ n - 1) mask }
{
    let end = 1u32 << n;
    let all = (end - 1) as u16;
    all & !mask
}

// The slots of a mask that are still to come.
#[derive(Drop)]
pub struct SlotsLeft {
    pub mask: u16,
}

// The slots of the mask, the lowest first.
pub fn slots_of(mask: u16) -> SlotsLeft
    ensures { result.mask ≡ mask }
{
    SlotsLeft { mask }
}

impl Iterator for SlotsLeft {
    type Item = u16;

    ghost next_gives = { takes_lowest };

    ghost remaining = { λ s. at_most s.mask };

    fn next(&mut self) -> Option<u16> {
        if self.mask == 0 {
            return None;
        }
        let slot = lowest(self.mask);
        self.mask = clear_slot(self.mask, slot);
        Some(slot)
    }
}
