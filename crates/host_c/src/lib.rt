#![tactic(auto)]

// The lock board for hosts in C: what include/lock_board.h declares. Each function is that of the crate `host`, with its contract:
// the C interface needs both, since an archive is no library of other crates.
ghost use Rattle.std.specs.Prelude.{◌≡◌};
ghost use Rattle.host.specs.Digraph.{reach_answer, reach_rows, LoopReply, is_loop_answer};
ghost use Rattle.host.specs.Host.{host_call, empty_answer, empty_image, order_answer, order_buffer};
ghost use Rattle.host.specs.Writing.{write_answer, write_buffer};

// The call of a C host: the image holds the board.
#[unsafe(no_mangle)]
pub extern "C" fn lock_board_line(
    image: &mut [u8],
    line: &[u8],
    journal: &mut [u8],
    place: u64,
) -> u64
    ensures value { result ≡ (host_call image.old line.now journal.old place).answer }
    ensures image_after { image.new ≡ (host_call image.old line.now journal.old place).image }
    ensures journal_after { journal.new ≡ (host_call image.old line.now journal.old place).journal }
{
    host::lock_board_line(image, line, journal, place)
}

// Fills a C host's image with the empty board, so that the host need not know the layout; the answer is 0.
// An image that hasn't 1,827 bytes stays as it was; the answer is then the largest number.
#[unsafe(no_mangle)]
pub extern "C" fn lock_board_empty(image: &mut [u8]) -> u64
    ensures value { result ≡ empty_answer image.old }
    ensures image_after { image.new ≡ empty_image image.old }
{
    host::lock_board_empty(image)
}

// The carried order of the image's board, for a C host: its program numbers from the buffer's start, and how many they are.
// The bytes after them keep their contents. Refusals 1 and 17 write nothing.
#[unsafe(no_mangle)]
pub extern "C" fn lock_board_order(image: &[u8], order: &mut [u8]) -> u64
    ensures value { result ≡ order_answer image.now order.old }
    ensures order_after { order.new ≡ order_buffer image.now order.old }
{
    host::lock_board_order(image, order)
}

// The matrix of the image's board, for a C host: for each program 1 to 32 four bytes, lowest first, bit i - 1 if i reaches it.
// Answers 128; the bytes after them keep their contents. Refusals 1 and 17 write nothing.
#[unsafe(no_mangle)]
pub extern "C" fn lock_board_reach(image: &[u8], rows: &mut [u8]) -> u64
    ensures value { result ≡ reach_answer image.now rows.old }
    ensures rows_after { rows.new ≡ reach_rows image.now rows.old }
{
    host::digraphs::lock_board_reach(image, rows)
}

// A loop for a program that waits, with the file given that it waits for, for a C host: its program numbers from the list's start,
// and how many they are; 0 for a program that doesn't wait, or waits for a record. The bytes after them keep their contents. Refusals 1, 8 and 17 write nothing.
#[unsafe(no_mangle)]
pub extern "C" fn lock_board_loop(image: &[u8], program: u64, list: &mut [u8]) -> u64
    ensures { LoopReply image.now program list.old result list.new }
{
    host::digraphs::lock_board_loop(image, program, list)
}

// The checker, for a C host: 1 if the list is a loop of the image's board with the file given to the program, otherwise 0.
// An image that isn't read: refusal 1.
#[unsafe(no_mangle)]
pub extern "C" fn lock_board_is_loop(image: &[u8], program: u64, file: u64, list: &[u8]) -> u64
    ensures { result ≡ is_loop_answer image.now program file list.now }
{
    host::digraphs::lock_board_is_loop(image, program, file, list)
}

// Writes the line that asks for the call from the buffer's start, and answers its length. A number that is no verb's gets 3, an ENTER
// whose claims haven't their length 8; the writer's refusals are 8, 19, 6 and 17. A refusal writes nothing, and bytes after the line keep
// their contents.
#[unsafe(no_mangle)]
pub extern "C" fn lock_board_write(
    verb: u64,
    program: u64,
    file: u64,
    item: u64,
    claims: &[u8],
    label: &[u8],
    line: &mut [u8],
) -> u64
    ensures value { result ≡ write_answer verb program file item claims.now label.now line.old }
    ensures line_after { line.new ≡ write_buffer verb program file item claims.now label.now line.old }
{
    host::writing::lock_board_write(verb, program, file, item, claims, label, line)
}
