// Numbers in lent bytes, little-endian: read and written at any byte, and runs of bytes copied, zeroed and tested for zero.
// A write replaces just the bytes that it names and keeps every other one: `over` of specs/Over.antt. The caller sees that they lie
// inside what is lent: that is a fact of a place and not of a value, so that it is a clause at each and no type's.

#![tactic(auto)]

ghost use Rattle.std.specs.Prelude.{◌≡◌, List, map, ℕ, ◌≤◌, ◌+◌, ◌-◌, ◌*◌, length, replicate};
ghost use Rattle.lent.specs.Bytes.{get, le, numbers, run, zeros};
ghost use Rattle.lent.specs.Over.{over};
ghost use Rattle.lent.specs.Values.{same_map};

// A number of so many bytes, the low one first.
pub trait Number: Copy + Default {
    ghost WIDTH: { ℕ };

    // The number that a value is, and those that a list's are.
    ghost value: { Self → ℕ };

    ghost values: { List Self → List ℕ };

    // How many bytes it takes.
    const WIDTH: usize;

    // The number in its bytes.
    fn read(bytes: &[u8]) -> Self
        requires { length bytes.now ≡ WIDTH }
        ensures { value result ≡ get WIDTH bytes.now 0 };

    // Writes the number to its bytes.
    fn write(self, bytes: &mut [u8])
        requires { length bytes.old ≡ WIDTH }
        ensures { bytes.new ≡ le WIDTH (value self) };

    ghost each: { (xs : List Self) → values xs ≡ map value xs };
}

impl Number for u8 {
    ghost WIDTH = { 1 };

    ghost value = { λ x. x };

    ghost values = { λ xs. xs };

    ghost each = { same_map };

    const WIDTH: usize = 1;

    fn read(bytes: &[u8]) -> u8 {
        bytes[0]
    }

    fn write(self, bytes: &mut [u8]) {
        bytes[0] = self;
    }
}

impl Number for u16 {
    ghost WIDTH = { 2 };

    ghost value = { λ x. x };

    ghost values = { λ xs. xs };

    ghost each = { same_map };

    const WIDTH: usize = 2;

    fn read(bytes: &[u8]) -> u16 {
        u16::from_le_bytes([bytes[0], bytes[1]])
    }

    fn write(self, bytes: &mut [u8]) {
        bytes.copy_from_slice(&u16::to_le_bytes(self));
    }
}

impl Number for u32 {
    ghost WIDTH = { 4 };

    ghost value = { λ x. x };

    ghost values = { λ xs. xs };

    ghost each = { same_map };

    const WIDTH: usize = 4;

    fn read(bytes: &[u8]) -> u32 {
        u32::from_le_bytes([bytes[0], bytes[1], bytes[2], bytes[3]])
    }

    fn write(self, bytes: &mut [u8]) {
        bytes.copy_from_slice(&u32::to_le_bytes(self));
    }
}

// The number in the bytes from `at` on.
pub fn get<T: Number>(b: &[u8], at: usize) -> T
    requires { at + T.WIDTH ≤ length b.now }
    ensures { T.value result ≡ get T.WIDTH b.now at }
{
    T::read(&b[at..at + T::WIDTH])
}

// Writes x to the bytes from `at` on.
pub fn put<T: Number>(b: &mut [u8], at: usize, x: T)
    requires { at + T.WIDTH ≤ length b.old }
    ensures { b.new ≡ over b.old at (le T.WIDTH (T.value x)) }
{
    x.write(&mut b[at..at + T::WIDTH]);
}

// Writes the numbers of `xs` to the bytes from `at` on, one behind the other.
pub fn put_all<T: Number>(b: &mut [u8], at: usize, xs: &[T])
    requires { at + T.WIDTH * length xs.now ≤ length b.old }
    ensures { b.new ≡ over b.old at (run T.WIDTH (T.values xs.now)) }
{
    for (i, x) in xs.iter().enumerate() {
        put(b, at + T::WIDTH * i, *x);
    }
}

// Some numbers, one behind the other, of which the first begins at `at`.
pub fn get_all<T: Number, const N: usize>(b: &[u8], at: usize) -> [T; N]
    requires { at + T.WIDTH * N ≤ length b.now }
    ensures { T.values result ≡ numbers T.WIDTH b.now at 0 N }
{
    let mut all = [T::default(); N];
    for i in 0..N {
        all[i] = get(b, at + T::WIDTH * i);
    }
    all
}

// Writes all of `from` to the bytes from `at` on. Byte by byte: the slice's `copy_from_slice` is the C library's memmove, and a host is promised that
// memcpy and memset are all that is needed of it.
pub fn copy(b: &mut [u8], at: usize, from: &[u8])
    requires { at + length from.now ≤ length b.old }
    ensures { b.new ≡ over b.old at from.now }
{
    for i in 0..from.len() {
        b[at + i] = from[i];
    }
}

// Writes zero to `count` bytes from `at` on.
pub fn zero(b: &mut [u8], at: usize, count: usize)
    requires { at + count ≤ length b.old }
    ensures { b.new ≡ over b.old at (replicate count 0) }
{
    b[at..at + count].fill(0);
}

// Whether the bytes from `from` up to but not including `to` are all zero; true where there are none. All are looked at, which costs
// less than a test at each.
pub fn all_zero(b: &[u8], from: usize, to: usize) -> bool
    requires { to ≤ length b.now }
    ensures { result ≡ zeros b.now from (to - from) }
{
    let mut any: u8 = 0;
    for i in from..to {
        any |= b[i];
    }
    any == 0
}
