//! The tokens of a text, from the left.

ghost use Rattle.std.specs.Prelude.{◌≡◌, ◌+◌, ◌<◌, ◌^◌, ◌≤◌, length, false, true, IsTrue, ◌==◌, if◌then◌else◌};
ghost use Rattle.image_text.specs.Tokens.{is_blank, has_close, Plain, LineComment, BlockComment, uncommented, tokens_from};
ghost use Rattle.image_text.specs.Fronts.{run_len, opens_comment, begins_with_close};
ghost use Rattle.image_text.specs.Steps.{StepGives, BlockGives};

/// A run of bytes that are neither blank nor in a comment, or the `/*` of a comment that is never
/// closed, with the line, from 1, in which it begins.
#[derive(Clone, Copy)]
pub struct Token<'a> {
    pub line: u64,
    pub bytes: &'a [u8],
}

/// What is left of a text, and the line in which that begins.
#[derive(Clone, Copy)]
pub struct Rest<'a> {
    pub line: u64,
    pub text: &'a [u8],
}

/// What stands at the front of a text.
pub enum Step<'a> {
    Skipped(Rest<'a>),
    Found(Token<'a>, Rest<'a>),
    End,
}

/// The next token, or what follows a blank or a comment.
pub fn next_step(rest: Rest<'_>) -> Step<'_>
    requires { rest.line + length rest.text.now < 2 ^ 64 }
    ensures { StepGives rest.entry result }
{
    let Some((first, after)) = rest.text.split_first() else {
        return Step::End;
    };
    if is_blank_byte(*first) {
        return Step::Skipped(Rest {
            line: line_after(rest.line, *first),
            text: after,
        });
    }
    if begins_comment(rest.text) {
        return over_comment(rest);
    }
    let (bytes, after) = rest.text.split_at(run_length(rest.text));
    let token = Token {
        line: rest.line,
        bytes,
    };
    let rest = Rest {
        line: rest.line,
        text: after,
    };
    Step::Found(token, rest)
}

/// What follows a comment, or its mark as a token.
fn over_comment(rest: Rest<'_>) -> Step<'_>
    requires room { rest.line + length rest.text.now < 2 ^ 64 }
    requires opens { IsTrue (opens_comment rest.text.now) }
    ensures { StepGives rest.entry result }
{
    let (mark, comment) = rest.text.split_at(2);
    if rest.text[1] == b'/' {
        return Step::Skipped(Rest {
            line: rest.line,
            text: after_line(comment),
        });
    }
    match after_block(rest.line, comment) {
        Some(after) => Step::Skipped(after),
        None => Step::Found(
            Token {
                line: rest.line,
                bytes: mark,
            },
            Rest {
                line: rest.line,
                text: &[],
            },
        ),
    }
}

/// What follows a line comment: its line feed is the first byte.
fn after_line(comment: &[u8]) -> &[u8]
    ensures rest { uncommented LineComment comment.now ≡ uncommented Plain result.now }
    ensures len { length result.now ≤ length comment.now }
{
    let mut rest = comment;
    while let Some((first, after)) = rest.split_first() {
        if *first == b'\n' {
            break;
        }
        rest = after;
    }
    rest
}

/// What follows a block comment, if it is closed.
fn after_block(line: u64, comment: &[u8]) -> Option<Rest<'_>>
    requires { line + length comment.now < 2 ^ 64 }
    ensures { BlockGives line comment.now result }
{
    let mut rest = Rest {
        line,
        text: comment,
    };
    while let Some((first, after)) = rest.text.split_first() {
        if closes_comment(rest.text) {
            let (_, text) = rest.text.split_at(2);
            return Some(Rest {
                line: rest.line,
                text,
            });
        }
        rest = Rest {
            line: line_after(rest.line, *first),
            text: after,
        };
    }
    None
}

/// How many bytes the run at the front of a text has.
fn run_length(text: &[u8]) -> usize
    ensures value { result ≡ run_len text.now }
    ensures within { result ≤ length text.now }
{
    let mut len = 0;
    let mut rest = text;
    while let Some((first, after)) = rest.split_first() {
        if is_blank_byte(*first) {
            return len;
        }
        if begins_comment(rest) {
            return len;
        }
        len += 1;
        rest = after;
    }
    len
}

/// The line after a byte.
fn line_after(line: u64, byte: u8) -> u64
    requires { line < usize.MAX }
    ensures value { result ≡ (if byte == 10 then line + 1 else line) }
    ensures bound { result ≤ line + 1 }
{
    if byte == b'\n' { line + 1 } else { line }
}

fn is_blank_byte(byte: u8) -> bool
    ensures { result ≡ is_blank byte }
{
    matches!(byte, b' ' | b'\t' | b'\n' | b'\r' | 0x0c)
}

fn closes_comment(text: &[u8]) -> bool
    ensures { result ≡ begins_with_close text.now }
{
    matches!(text, [b'*', b'/', ..])
}

fn begins_comment(text: &[u8]) -> bool
    ensures { result ≡ opens_comment text.now }
{
    matches!(text, [b'/', b'/' | b'*', ..])
}
