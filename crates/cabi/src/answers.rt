// What the calls on a renderer answer, in numbers. Where `number` is not 0 the rest is 0.
ghost use Rattle.std.specs.Prelude.{◌≡◌};
ghost use Rattle.renderer.specs.Answers.{lengths_seen, reply_length_seen, open_number, order_seen};
ghost use Rattle.cabi.specs.Answers.{lengths_left, length_in, update_told, render_told, section_told, order_in};

use desk_order::MixOrder;
use renderer::{
    Lengths, LengthsError, OpenError, OrderError, RenderError, SectionError, UpdateError,
};

#[repr(C)]
#[derive(Clone, Copy)]
pub struct JeqllunaLengths {
    pub number: u32,
    pub words: usize,
    pub longs: usize,
    pub floats: usize,
    pub contexts: usize,
    pub history: usize,
}

#[repr(C)]
#[derive(Clone, Copy)]
pub struct JeqllunaLength {
    pub number: u32,
    pub size: usize,
}

#[repr(C)]
#[derive(Clone, Copy)]
pub struct JeqllunaUpdate {
    pub number: u32,
    // The length of the reply.
    pub size: usize,
}

#[repr(C)]
#[derive(Clone, Copy)]
pub struct JeqllunaRender {
    pub number: u32,
    // The rounds that the fetches took, of all voices; of a section, those of all its renders.
    pub rounds: u32,
}

#[repr(C)]
#[derive(Clone, Copy)]
pub struct JeqllunaOrder {
    pub number: u32,
    // How many sub-mixes run.
    pub count: u32,
    // Their numbers in their sequence, and zeros behind them.
    pub mixes: [u32; 31],
}

pub fn lengths_told(a: Result<Lengths, LengthsError>) -> JeqllunaLengths
    ensures { lengths_left result ≡ lengths_seen a }
{
    match a {
        Ok(at) => JeqllunaLengths {
            number: 0,
            words: at.words,
            longs: at.longs,
            floats: at.floats,
            contexts: at.contexts,
            history: at.history,
        },
        Err(e) => JeqllunaLengths {
            number: e.number(),
            words: 0,
            longs: 0,
            floats: 0,
            contexts: 0,
            history: 0,
        },
    }
}

pub fn reply_length_told(a: Result<usize, LengthsError>) -> JeqllunaLength
    ensures { length_in result ≡ reply_length_seen a }
{
    match a {
        Ok(size) => JeqllunaLength { number: 0, size },
        Err(e) => JeqllunaLength {
            number: e.number(),
            size: 0,
        },
    }
}

pub fn open_told(a: Result<(), OpenError>) -> u32
    ensures { result ≡ open_number a }
{
    match a {
        Ok(()) => 0,
        Err(e) => e.number(),
    }
}

pub fn update_told(a: Result<usize, UpdateError>) -> JeqllunaUpdate
    ensures { result ≡ update_told a }
{
    match a {
        Ok(size) => JeqllunaUpdate { number: 0, size },
        Err(e) => JeqllunaUpdate {
            number: e.number(),
            size: 0,
        },
    }
}

pub fn render_told(a: Result<u32, RenderError>) -> JeqllunaRender
    ensures { result ≡ render_told a }
{
    match a {
        Ok(rounds) => JeqllunaRender { number: 0, rounds },
        Err(e) => JeqllunaRender {
            number: e.number(),
            rounds: 0,
        },
    }
}

pub fn section_told(a: Result<u32, SectionError>) -> JeqllunaRender
    ensures { result ≡ section_told a }
{
    match a {
        Ok(all) => JeqllunaRender {
            number: 0,
            rounds: all,
        },
        Err(e) => JeqllunaRender {
            number: e.number(),
            rounds: 0,
        },
    }
}

pub fn order_told(a: Result<MixOrder, OrderError>) -> JeqllunaOrder
    ensures { order_in result ≡ order_seen a }
{
    match a {
        Ok(order) => {
            let mixes = order.mixes;
            JeqllunaOrder {
                number: 0,
                count: order.count,
                mixes,
            }
        }
        Err(e) => JeqllunaOrder {
            number: e.number(),
            count: 0,
            mixes: [0; 31],
        },
    }
}
