//! Writing a line of the notation.

ghost use Rattle.std.specs.Prelude.{◌≡◌, ◌+◌, ◌/◌, ◌%◌, ◌<◌, ◌≤◌, ◌++◌, ◌∷◌, [], Option, Some, length, take, IfOk};
ghost use Rattle.std.specs.Prelude.{OnErr, OnOk, EachIndex, slice_index};
ghost use Rattle.std.specs.Char.{IsScalar};
ghost use Rattle.lbk_notation.specs.Grammar.{IsLine, digit_byte, mark_bytes};
ghost use Rattle.lbk_notation.specs.TestLine.{Line};
ghost use Rattle.lbk_feed.specs.Appended.{HasPut};
ghost use Rattle.lbk_notation.specs.Written.{AppendsAll, shown, shown_line, token, written_line};
ghost use Rattle.lbk_notation.specs.Written.{written_marks};
ghost use Rattle.lbk_passage.specs.Placing.{PlacedIn};

use super::marks::{Form, Mark};
use super::test_line::TestLine;
use lbk_passage::lines::place_front;
use std::alloc::{AllocError, Global};

/// Room for what is written of a scalar, and past its end.
pub(crate) const SCALAR: usize = 16;

/// The line as bytes, without a line end: marks and hex tokens, separated by one space, each token with as few digits
/// as possible, at least four. Form Plain has `÷` for every break. Returns an error if memory could not grow.
pub fn write_line(alloc: Global, line: &TestLine, form: Form) -> Result<Vec<u8>, AllocError>
    ensures text { IfOk result (λ bytes. bytes.items ≡ written_line form line.now) }
    // The written line is in the grammar; it means these marks, as shown in the form, and these scalars, and nothing
    // else.
    ensures again { IfOk result (λ bytes. IsLine form bytes.items (Some (shown_line form line.now))) }
    ensures only { IfOk result (λ bytes. (other : Option Line) → IsLine form bytes.items other
        → other ≡ Some (shown_line form line.now)) }
{
    let mut text = Vec::new(alloc);
    push_line(&mut text, line.scalars(), line.marks(), form)?;
    Ok(text)
}

/// Appends the written line of these to the text; there is one more mark than scalars. Returns an error if memory could
/// not grow; a prefix of the line may be written then.
pub fn push_line(
    text: &mut Vec<u8>,
    scalars: &[char],
    marks: &[Mark],
    form: Form,
) -> Result<(), AllocError>
    requires { length marks.now ≡ length scalars.now + 1 }
    ensures text { OnOk result (text.new.items ≡ text.old.items ++ written_marks form scalars.now marks.now) }
    ensures refused { OnErr result (HasPut text.old.items text.new.items (written_marks form scalars.now marks.now)) }
    ensures chars { OnOk result (EachIndex scalars.now (λ k. IsScalar (slice_index scalars.now k))) }
{
    push_mark(text, marks[0], form)?;
    for k in 0..scalars.len() {
        push_scalar(text, scalars[k], marks[k + 1], form)?;
    }
    Ok(())
}

/// Appends a space, a scalar's token, a space and the mark after it to the text. Returns an error if memory could not
/// grow; a prefix of these may be written then.
pub fn push_scalar(
    text: &mut Vec<u8>,
    scalar: char,
    mark: Mark,
    form: Form,
) -> Result<(), AllocError>
    ensures text { OnOk result (text.new.items
        ≡ text.old.items ++ (32 ∷ (token scalar ++ (32 ∷ mark_bytes (shown form mark))))) }
    ensures refused { OnErr result (HasPut text.old.items text.new.items
        (32 ∷ (token scalar ++ (32 ∷ mark_bytes (shown form mark))))) }
{
    let mut bytes = [0; SCALAR];
    let len = place_scalar(&mut bytes, 0, scalar, mark, form);
    text.extend_from_slice(&bytes[..len])
}

/// Writes a space, a scalar's token, a space and the mark after it to a buffer, and returns the index after them. Most
/// scalars have four digits: one instruction stores them with the mark.
#[inline(always)]
pub(crate) fn place_scalar(buf: &mut [u8], at: usize, scalar: char, mark: Mark, form: Form) -> usize
    requires { at + 16 ≤ length buf.old }
    ensures { PlacedIn buf.old buf.new at 16 (32 ∷ (token scalar ++ (32 ∷ mark_bytes (shown form mark)))) result }
{
    let code = u32::from(scalar);
    if 0x1_0000 <= code {
        return place_long(buf, at, code, mark, form);
    }
    let sign = sign_of(mark, form);
    let [third, second, first, last] = four_digits(code);
    let [lead, trail] = sign.bytes;
    let bytes = [b' ', third, second, first, last, b' ', lead, trail];
    place_front(buf, at, bytes, 6 + sign.len)
}

/// Writes a token of five or six digits in the same way, and a mark.
#[cold]
#[inline(never)]
fn place_long(buf: &mut [u8], at: usize, code: u32, mark: Mark, form: Form) -> usize
    requires code { (0x1_0000 ≤ code) × (code < 0x11_0000) }
    requires room { at + 16 ≤ length buf.old }
    ensures { PlacedIn buf.old buf.new at 16 (32 ∷ (token code ++ (32 ∷ mark_bytes (shown form mark)))) result }
{
    let sign = sign_of(mark, form);
    let [fifth, fourth] = two_digits(code / 0x1_0000);
    let [third, second, first, last] = four_digits(code);
    let [lead, trail] = sign.bytes;
    if code < 0x10_0000 {
        let bytes = [
            b' ', fourth, third, second, first, last, b' ', lead, trail, 0, 0, 0, 0, 0, 0, 0,
        ];
        return place_front(buf, at, bytes, 7 + sign.len);
    }
    let bytes = [
        b' ', fifth, fourth, third, second, first, last, b' ', lead, trail, 0, 0, 0, 0, 0, 0,
    ];
    place_front(buf, at, bytes, 8 + sign.len)
}

/// Appends a mark to the text, as the form writes it. Returns an error if memory could not grow; the text is unchanged
/// then.
pub fn push_mark(text: &mut Vec<u8>, mark: Mark, form: Form) -> Result<(), AllocError>
    ensures { AppendsAll text.old.items text.new.items (mark_bytes (shown form mark)) result }
{
    let sign = sign_of(mark, form);
    text.extend_from_slice(&sign.bytes[..sign.len])
}

/// The bytes of a mark, one or two.
#[derive(Clone, Copy)]
struct Sign {
    bytes: [u8; 2],
    len: usize,
}

/// A mark as the form writes it.
#[inline(always)]
fn sign_of(mark: Mark, form: Form) -> Sign
    ensures bytes { take result.len result.bytes ≡ mark_bytes (shown form mark) }
    ensures few { result.len ≤ 2 }
{
    match (form, mark) {
        (_, Mark::No) => Sign {
            bytes: [0xC3, 0x97], // ×
            len: 2,
        },
        (Form::Kinds, Mark::Must) => Sign {
            bytes: [b'!', b' '],
            len: 1,
        },
        (Form::Plain, Mark::Must) | (_, Mark::May) => Sign {
            bytes: [0xC3, 0xB7], // ÷
            len: 2,
        },
    }
}

/// The last four hex digits of a number.
#[inline(always)]
fn four_digits(code: u32) -> [u8; 4]
    ensures { result ≡ digit_byte (code / 0x1000 % 16) ∷ digit_byte (code / 0x100 % 16) ∷ digit_byte (code / 0x10 % 16)
        ∷ digit_byte (code % 16) ∷ [] }
{
    let [third, second] = two_digits(code / 0x100 % 0x100);
    let [first, last] = two_digits(code % 0x100);
    [third, second, first, last]
}

/// The two upper-case hex digits of a number below 256. They are read as one number.
#[inline(always)]
fn two_digits(number: u32) -> [u8; 2]
    requires { number < 256 }
    ensures { result ≡ digit_byte (number / 16) ∷ digit_byte (number % 16) ∷ [] }
{
    PAIRS[number as usize].to_le_bytes()
}

/// The two hex digits of each number below 256, as bytes of a number of 16 bits: the low one is the first.
#[rattlefmt::skip]
static PAIRS: [u16; 256] = [
    0x3030, 0x3130, 0x3230, 0x3330, 0x3430, 0x3530, 0x3630, 0x3730,
    0x3830, 0x3930, 0x4130, 0x4230, 0x4330, 0x4430, 0x4530, 0x4630,
    0x3031, 0x3131, 0x3231, 0x3331, 0x3431, 0x3531, 0x3631, 0x3731,
    0x3831, 0x3931, 0x4131, 0x4231, 0x4331, 0x4431, 0x4531, 0x4631,
    0x3032, 0x3132, 0x3232, 0x3332, 0x3432, 0x3532, 0x3632, 0x3732,
    0x3832, 0x3932, 0x4132, 0x4232, 0x4332, 0x4432, 0x4532, 0x4632,
    0x3033, 0x3133, 0x3233, 0x3333, 0x3433, 0x3533, 0x3633, 0x3733,
    0x3833, 0x3933, 0x4133, 0x4233, 0x4333, 0x4433, 0x4533, 0x4633,
    0x3034, 0x3134, 0x3234, 0x3334, 0x3434, 0x3534, 0x3634, 0x3734,
    0x3834, 0x3934, 0x4134, 0x4234, 0x4334, 0x4434, 0x4534, 0x4634,
    0x3035, 0x3135, 0x3235, 0x3335, 0x3435, 0x3535, 0x3635, 0x3735,
    0x3835, 0x3935, 0x4135, 0x4235, 0x4335, 0x4435, 0x4535, 0x4635,
    0x3036, 0x3136, 0x3236, 0x3336, 0x3436, 0x3536, 0x3636, 0x3736,
    0x3836, 0x3936, 0x4136, 0x4236, 0x4336, 0x4436, 0x4536, 0x4636,
    0x3037, 0x3137, 0x3237, 0x3337, 0x3437, 0x3537, 0x3637, 0x3737,
    0x3837, 0x3937, 0x4137, 0x4237, 0x4337, 0x4437, 0x4537, 0x4637,
    0x3038, 0x3138, 0x3238, 0x3338, 0x3438, 0x3538, 0x3638, 0x3738,
    0x3838, 0x3938, 0x4138, 0x4238, 0x4338, 0x4438, 0x4538, 0x4638,
    0x3039, 0x3139, 0x3239, 0x3339, 0x3439, 0x3539, 0x3639, 0x3739,
    0x3839, 0x3939, 0x4139, 0x4239, 0x4339, 0x4439, 0x4539, 0x4639,
    0x3041, 0x3141, 0x3241, 0x3341, 0x3441, 0x3541, 0x3641, 0x3741,
    0x3841, 0x3941, 0x4141, 0x4241, 0x4341, 0x4441, 0x4541, 0x4641,
    0x3042, 0x3142, 0x3242, 0x3342, 0x3442, 0x3542, 0x3642, 0x3742,
    0x3842, 0x3942, 0x4142, 0x4242, 0x4342, 0x4442, 0x4542, 0x4642,
    0x3043, 0x3143, 0x3243, 0x3343, 0x3443, 0x3543, 0x3643, 0x3743,
    0x3843, 0x3943, 0x4143, 0x4243, 0x4343, 0x4443, 0x4543, 0x4643,
    0x3044, 0x3144, 0x3244, 0x3344, 0x3444, 0x3544, 0x3644, 0x3744,
    0x3844, 0x3944, 0x4144, 0x4244, 0x4344, 0x4444, 0x4544, 0x4644,
    0x3045, 0x3145, 0x3245, 0x3345, 0x3445, 0x3545, 0x3645, 0x3745,
    0x3845, 0x3945, 0x4145, 0x4245, 0x4345, 0x4445, 0x4545, 0x4645,
    0x3046, 0x3146, 0x3246, 0x3346, 0x3446, 0x3546, 0x3646, 0x3746,
    0x3846, 0x3946, 0x4146, 0x4246, 0x4346, 0x4446, 0x4546, 0x4646,
];
