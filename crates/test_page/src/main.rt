// Runs the candidate page on outside vectors: each call of stdin is made on a page of tildes, and
// its number and all of the page are printed, a long page by its ends and a checksum.
// host/vectors/page.py says what stdin and stdout hold, and how to make them again.
#![tactic(auto)]

mod print; // print.rt: an answer's lines

ghost use Rattle.std.specs.Prelude.{◌≡◌};
ghost use Rattle.test_page.specs.Calls.{over_and_over, tildes};

use console::Console;
use page::candidate_page;
use std::io;

// A call at a time, to the end of stdin. The areas hold the longest list and the longest page.
fn main(rt: HostRuntime) -> io::Result<()> {
    let mut console = Console::new(rt);
    let mut list = [0.0; 40004];
    let mut area = [0u8; 370037];
    for number in 0..10000usize {
        let mut head = [0u8; 40];
        let n = console.read_full(&mut head);
        if n < 40 {
            break;
        }
        call(&mut console, number, &head, &mut list, &mut area);
    }
    console.finish()
}

// The call that five words describe, on as much of both areas as it is lent.
fn call(console: &mut Console, number: usize, head: &[u8], list: &mut [f64], area: &mut [u8]) {
    let listed = size_at(head, 1).min(list.len());
    let room = size_at(head, 2).min(area.len());
    answer(
        console,
        number,
        head,
        &mut list[..listed],
        &mut area[..room],
    );
}

// The list has the first floats behind the words over and over, but the others at its end.
fn answer(console: &mut Console, number: usize, head: &[u8], list: &mut [f64], area: &mut [u8]) {
    load(console, size_at(head, 3), list);
    let last = size_at(head, 4).min(list.len());
    let start = list.len() - last;
    load(console, last, &mut list[start..]);
    clear(area);
    let answer = candidate_page(list, size_at(head, 0), area);
    print::answer(console, number, answer, area);
}

// Reads n floats, and fills the list with them.
fn load(console: &mut Console, n: usize, list: &mut [f64]) {
    let mut words = [0u8; 16384];
    let end = 8 * n.min(2048);
    read(console, &mut words[..end], list);
}

fn read(console: &mut Console, words: &mut [u8], list: &mut [f64]) {
    console.read_full(words);
    fill(list, words);
}

fn size_at(b: &[u8], i: usize) -> usize {
    vectors::word(b, i) as usize
}

// Every entry of the list, from the words over and over.
fn fill(list: &mut [f64], words: &[u8])
    ensures { list.new ≡ over_and_over words.now list.old }
{
    let n = (words.len() / 8).max(1);
    for (k, x) in list.iter_mut().enumerate() {
        *x = vectors::double(vectors::word(words, k % n));
    }
}

// A letter that no page has, at every place.
fn clear(area: &mut [u8])
    ensures { area.new ≡ tildes area.old }
{
    area.fill(b'~');
}
