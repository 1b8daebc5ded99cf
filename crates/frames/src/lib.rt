// What the programs that test the library do alike: they read frames on standard input and print numbers on standard output.
// A frame is two bytes of length, little-endian, then that many bytes, or those that are left. The end of the input ends the list, and so does a length
// above LONGEST.
// What is read and printed no contract can say. So the functions promise that they are safe and end, `read_up_to` that it stays within its buffer, `read`
// that all is there or nothing given, `numbers` how many it gives, and `each` asks of what it calls that a frame of at most LONGEST bytes will do.

#![tactic(auto)]

ghost use Rattle.std.specs.Prelude.{◌≡◌, ◌≤◌, ◌/◌, max, length};
ghost use Rattle.std.specs.Option.{IfSome};

// The descriptors that are read from and written to.
const STDIN_FILENO: i32 = 0;

const STDOUT_FILENO: i32 = 1;

// The longest frame, and the most frames or histories in a run.
pub const LONGEST: usize = 1024;

pub const MOST: u32 = 1000000;

// As many bytes of standard input as the buffer holds, or as are left.
pub fn read_up_to(buffer: &mut [u8]) -> &mut [u8]
    ensures { length result.now ≤ length buffer.old }
{
    let count = io::read_full(STDIN_FILENO, buffer);
    &mut buffer[..count]
}

// So many bytes of standard input as an array; None where fewer are left.
pub fn read<const N: usize>() -> Option<[u8; N]>
    ensures { IfSome result (λ bytes. length bytes ≡ N) }
{
    let mut buffer = [0; N];
    <[u8; N]>::try_from(read_up_to(&mut buffer)).ok()
}

// Gives each frame of standard input to `report`, until that returns None.
pub fn each<F: FnMut(&mut [u8]) -> Option<()>>(mut report: F)
    requires { (state : F) (frame : _) → length frame.now ≤ LONGEST → F.pre state frame }
    ensures { result ≡ tt }
{
    for _ in 0..MOST {
        let Some(two) = read::<2>() else {
            return;
        };
        let length = usize::from(u16::from_le_bytes(two));
        if length > LONGEST {
            return;
        }
        let mut buffer = [0u8; LONGEST];
        if report(read_up_to(&mut buffer[..length])).is_none() {
            return;
        }
    }
}

// Writes the numbers of a frame, two bytes each, over the zeros in `room`, and gives them: so many at least, those that the frame has not being 0.
pub fn numbers<'a>(frame: &[u8], least: usize, room: &'a mut [u16; 512]) -> &'a [u16]
    requires { (length frame.now ≤ 1024) × (least ≤ 512) }
    ensures { length result.now ≡ max (length frame.now / 2) least }
{
    for (number, two) in room.iter_mut().zip(frame.chunks_exact(2)) {
        *number = u16::from_le_bytes([two[0], two[1]]);
    }
    &room[..(frame.len() / 2).max(least)]
}

// Prints text.
pub fn print(text: &[u8])
    ensures { result ≡ tt }
{
    io::write_all(STDOUT_FILENO, text);
}

// Prints a number. By the kit's function, in these programs, and not by `Display`: that would need a `fmt::Write` over the descriptor as well, and each `fmt`
// the same calls.
pub fn print_number(n: impl Into<u64>)
    ensures { result ≡ tt }
{
    io::print_decimal(STDOUT_FILENO, n.into());
}

// Prints numbers, a space before each.
pub fn print_fields<T: Copy + Into<u64>>(numbers: &[T])
    ensures { result ≡ tt }
{
    for x in numbers {
        print(b" ");
        print_number(*x);
    }
}
