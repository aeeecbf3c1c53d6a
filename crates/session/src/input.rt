// The session program's input: three sections, each after its 32-bit count. The parameters are 0x34 bytes.
ghost use Rattle.std.specs.Prelude.{◌≡◌, ◌+◌};
ghost use Rattle.session.specs.Input.{parameters_of, memory_size, memory_of, call_count, calls_of, call_of, size_of};

use params::Params;

// What stands at the front of the calls: a render is one byte; an update is one, the size of reply that it expects, and its input after the input's size.
#[derive(Clone, Copy, Debug, PartialEq, Eq)]
pub enum Call {
    Render,
    Update { expected: u32, size: u32 },
}

impl Call {
    // The bytes of the call.
    pub fn size(self) -> usize
        ensures { result ≡ size_of (Some «self») }
    {
        match self {
            Call::Render => 1,
            Call::Update { expected: _, size } => 9 + size as usize,
        }
    }
}

pub fn parameters(input: &[u8]) -> Params
    ensures { result ≡ parameters_of input.now }
{
    Params::parse(fields::section(input, 0x4, 0x34))
}

pub fn memory_size(input: &[u8]) -> u32
    ensures { result ≡ memory_size input.now }
{
    fields::u32_at(input, 0x38)
}

pub fn memory(input: &[u8]) -> &[u8]
    ensures { result.now ≡ memory_of input.now }
{
    let n = memory_size(input);
    fields::section(input, 0x3c, n as usize)
}

pub fn call_count(input: &[u8]) -> u32
    ensures { result ≡ call_count input.now }
{
    let n = memory_size(input);
    fields::u32_at(input, 0x3c + n as usize)
}

pub fn calls(input: &[u8]) -> &[u8]
    ensures { result.now ≡ calls_of input.now }
{
    let n = memory_size(input);
    fields::rest(input, 0x40 + n as usize)
}

// The call at the front of d, if one is there.
pub fn first_call(d: &[u8]) -> Option<Call>
    ensures { result ≡ call_of d.now }
{
    let kind = fields::byte_at(d, 0);
    if kind == 1 {
        return Some(Call::Render);
    }
    if kind != 0 {
        return None;
    }
    let expected = fields::u32_at(d, 1);
    let size = fields::u32_at(d, 5);
    if d.len() < 9 + size as usize {
        return None;
    }
    Some(Call::Update { expected, size })
}
