//! The body of a refusal.
ghost use Rattle.std.specs.Prelude.{◌≡◌, ◌≤◌, ◌+◌, ◌-◌, ◌++◌, codes, decimal, length};
ghost use Rattle.arrayvec.specs.ArrayVec.{array_vec_len};
ghost use Rattle.pm_base.specs.Code.{code_name};
ghost use Rattle.pm_http.specs.Reply.{line_member, refusal_body};

use arrayvec::ArrayVec;
use itoa::Buffer;
use pm_base::Code;

// The most bytes of a refusal's body are those of `{"code":"N10","line":4294967295}`, and some more.
const ROOM: usize = 64;

/// The body of a refusal, on the stack.
pub fn refusal(code: Code, line: u32) -> ArrayVec<u8, ROOM>
    ensures { result.items ≡ refusal_body code line }
{
    let mut body = ArrayVec::new();
    append(&mut body, b"{\"code\":\"");
    append(&mut body, name_of(code).as_bytes());
    append(&mut body, b"\"");
    append_line(&mut body, code, line);
    append(&mut body, b"}");
    body
}

// The name of a code, which is short.
fn name_of(code: Code) -> &'static str
    ensures name { result.now ≡ code_name code }
    ensures short { length result.now ≤ 3 }
{
    code.name()
}

// The line of a refusal, where the code has one.
fn append_line(body: &mut ArrayVec<u8, ROOM>, code: Code, line: u32)
    requires room { array_vec_len body.old ≤ 16 }
    ensures items { body.new.items ≡ body.old.items ++ line_member code line }
    ensures room { array_vec_len body.new ≤ 64 - 8 }
{
    match code {
        Code::E1 | Code::E2 | Code::E3 | Code::E4 => append_number(body, line),
        _ => {}
    }
}

fn append_number(body: &mut ArrayVec<u8, ROOM>, line: u32)
    requires room { array_vec_len body.old ≤ 16 }
    ensures items { body.new.items ≡ body.old.items ++ codes ",\"line\":" ++ decimal line }
    ensures room { array_vec_len body.new ≤ 64 - 8 }
{
    let mut digits = Buffer::new();
    append(body, b",\"line\":");
    append(body, digits.format(line).as_bytes());
}

fn append(body: &mut ArrayVec<u8, ROOM>, bytes: &[u8])
    requires { array_vec_len body.old + length bytes.now ≤ 64 }
    ensures items { body.new.items ≡ body.old.items ++ bytes.now }
    ensures len { array_vec_len body.new ≡ array_vec_len body.old + length bytes.now }
{
    match body.try_extend_from_slice(bytes) {
        Ok(()) => {}
        Err(_) => unreachable!(),
    }
}
