ghost use Rattle.std.specs.Prelude.{◌≡◌, ◌∷◌, Some, option_map, IfOk};
ghost use Rattle.pcj_case_lines.specs.Field.{HasFields, AddsPiece, IsDigit, IsField, escape_of};

use crate::unanswered::Unanswered;
use pcj_term::Bytes;
use std::alloc::Global;

/// The fields of a line, each without its escapes. No case is a line with a backslash that begins no escape.
pub fn fields(alloc: Global, line: &str) -> Result<Vec<Bytes>, Unanswered>
    ensures { IfOk result (λ fields. HasFields line.now fields.items) }
{
    let mut fields = Vec::new(alloc);
    let mut rest = line.as_bytes();
    loop {
        let (field, behind) = read_field(alloc, rest)?;
        fields.push(field)?;
        match behind {
            Some(behind) => rest = behind,
            None => return Ok(fields),
        }
    }
}

/// The field at the front of a line, and what stands behind the TAB after it.
fn read_field<'a>(alloc: Global, line: &'a [u8]) -> Result<(Bytes, Option<&'a [u8]>), Unanswered>
    ensures { IfOk result (λ front. IsField line.now front.0 (option_map (λ rest. rest.now) front.1)) }
{
    let mut field = Bytes::new(alloc);
    let mut rest = line;
    loop {
        let Some((byte, behind)) = rest.split_first() else {
            return Ok((field, None));
        };
        match *byte {
            b'\t' => return Ok((field, Some(behind))),
            b'\\' => rest = take_escape(&mut field, behind)?,
            byte => {
                field.push(byte)?;
                rest = behind;
            }
        }
    }
}

/// Takes an escape, behind its backslash.
fn take_escape<'a>(field: &mut Bytes, line: &'a [u8]) -> Result<&'a [u8], Unanswered>
    ensures { IfOk result (λ rest. AddsPiece (92 ∷ line.now) field.old field.new rest.now) }
{
    let Some((letter, behind)) = line.split_first() else {
        return Err(Unanswered::NoCase);
    };
    if *letter == b'x' {
        return take_number(field, behind);
    }
    field.extend_from_slice(escaped_by(*letter)?)?;
    Ok(behind)
}

/// What a letter behind a backslash stands for. `e` stands for nothing, so that an empty field can be seen.
fn escaped_by(letter: u8) -> Result<&'static [u8], Unanswered>
    ensures { IfOk result (λ piece. escape_of letter ≡ Some piece.now) }
{
    match letter {
        b'e' => Ok(b""),
        b't' => Ok(b"\t"),
        b'n' => Ok(b"\n"),
        b'r' => Ok(b"\r"),
        b'\\' => Ok(b"\\"),
        _ => Err(Unanswered::NoCase),
    }
}

/// Takes an escape by number, behind its `x`.
fn take_number<'a>(field: &mut Bytes, line: &'a [u8]) -> Result<&'a [u8], Unanswered>
    ensures { IfOk result (λ rest. AddsPiece (92 ∷ 120 ∷ line.now) field.old field.new rest.now) }
{
    let (high, line) = digit(line)?;
    let (low, behind) = digit(line)?;
    field.push(high * 16 + low)?;
    Ok(behind)
}

/// The value of the hexadecimal digit at the front, and what stands behind it.
fn digit(line: &[u8]) -> Result<(u8, &[u8]), Unanswered>
    ensures { IfOk result (λ front. IsDigit line.now front.0 front.1.now) }
{
    let Some((byte, behind)) = line.split_first() else {
        return Err(Unanswered::NoCase);
    };
    match char::from(*byte).to_digit(16) {
        Some(value) => Ok((value as u8, behind)),
        None => Err(Unanswered::NoCase),
    }
}
