// The lines of the text, each ended by a newline, written at the front of a buffer that has room for them.
ghost use Rattle.std.specs.Prelude.{◌∷◌, ◌++◌, ◌≡◌, ◌+◌, ◌*◌, ◌≤◌, ◌<◌, length, drop};
ghost use Rattle.common.specs.Refusals.{refusal_number};
ghost use Rattle.queries.specs.Queries.{report_answer};
ghost use Rattle.slices.specs.Slices.{copied};
ghost use Rattle.listing.specs.Ascii.{ascii};
ghost use Rattle.listing.specs.Text.{hex_digit, hex_u16, decimal_digits, field, fields, refused_line, lines_of};

use arrayvec::ArrayVec;
use common::Refusal;
use queries::Report;

// A digit of a number below 16: the letters are capitals.
#[tactic(auto, using(common::specs::TestLaws::tests), unfolding(crate::specs::Text::hex_digit, common::specs::ConditionDefinitions::condition_definitions))]
fn hex_digit(n: u8) -> u8
    requires { n < 16 }
    ensures { result ≡ hex_digit n }
{
    if n < 10 { b'0' + n } else { b'A' + (n - 10) }
}

// A byte as a field: a space and two digits.
#[tactic(auto, unfolding(crate::specs::Text::field, crate::specs::Text::hex_byte))]
fn field(byte: u8) -> [u8; 3]
    ensures { result ≡ field byte }
{
    [b' ', hex_digit(byte / 16), hex_digit(byte % 16)]
}

// Each byte as a field, from `at` on.
#[tactic(auto, using(crate::proofs::PutTextLaws::fields_put_none, crate::proofs::PutTextLaws::fields_put_more))]
fn put_fields(bytes: &[u8], text: &mut [u8], at: usize)
    requires { at + 3 * length bytes.now ≤ length text.old }
    ensures { text.new ≡ copied text.old at (fields bytes.now) }
{
    for (i, byte) in bytes.iter().enumerate() {
        slices::copy(text, at + 3 * i, &field(*byte));
    }
}

// A status of one digit, and a counter.
#[tactic(auto, using(crate::specs::TextLaws::one_digit), unfolding(crate::specs::Text::hex_u16, crate::specs::Text::hex_byte))]
fn put_status_and_counter(status: u8, counter: u16, text: &mut [u8])
    requires { status < 10 }
    ensures { text.new ≡ copied text.old 0 (decimal_digits status ++ ascii " " ++ hex_u16 counter) }
{
    let [high, low] = counter.to_be_bytes();
    let head = [
        b'0' + status,
        b' ',
        hex_digit(high / 16),
        hex_digit(high % 16),
        hex_digit(low / 16),
        hex_digit(low % 16),
    ];
    slices::copy(text, 0, &head);
}

// The values that stand as bytes behind the counter.
fn put_psw_and_registers(report: Report, text: &mut [u8])
    requires { 33 ≤ length text.old }
    ensures { text.new ≡ copied text.old 6 (fields (report.psu ∷ report.psl ∷ report.registers)) }
{
    put_fields(&[report.psu, report.psl], text, 6);
    put_fields(&report.registers, text, 12);
}

// The report's line, and the line of the output bytes; answers their length.
pub(crate) fn put_lines(report: Report, output: &[u8], text: &mut [u8]) -> usize
    requires status_bound { report.status < 10 }
    requires output_in_bounds { 38 + 3 * length output.now ≤ length text.old }
    ensures value { result ≡ length (lines_of (report_answer report) output.now) }
    ensures text_after { text.new ≡ lines_of (report_answer report) output.now ++ drop result text.old }
    ensures value_2 { result ≡ 38 + 3 * length output.now }
{
    put_status_and_counter(report.status, report.counter, text);
    put_psw_and_registers(report, text);
    slices::copy(text, 33, b"\nout");
    put_fields(output, text, 37);
    let end = 37 + 3 * output.len();
    slices::copy(text, end, b"\n");
    end + 1
}

// The digits of a number below 100.
#[tactic(auto, using(crate::specs::TextLaws::one_digit, crate::specs::TextLaws::two_digits))]
fn decimal_digits(n: u8) -> ArrayVec<u8, 2>
    ensures { result.items ≡ decimal_digits n }
{
    let mut digits = ArrayVec::new();
    if 10 <= n {
        digits.push(b'0' + n / 10);
    }
    digits.push(b'0' + n % 10);
    digits
}

// `refused N`; answers the line's length.
pub(crate) fn put_refused(refusal: Refusal, text: &mut [u8]) -> usize
    requires { 11 ≤ length text.old }
    ensures value { result ≡ length (refused_line (refusal_number refusal)) }
    ensures text_after { text.new ≡ refused_line (refusal_number refusal) ++ drop result text.old }
    ensures upper_bound { result ≤ 11 }
{
    let digits = decimal_digits(refusal.number());
    slices::copy(text, 0, b"refused ");
    slices::copy(text, 8, &digits);
    let end = 8 + digits.len();
    slices::copy(text, end, b"\n");
    end + 1
}
