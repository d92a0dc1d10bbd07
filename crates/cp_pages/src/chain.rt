//! Contents along chains of pages, in which each page names the next.

ghost use Rattle.std.specs.Prelude.{◌≡◌, ◌<◌, ◌≤◌, ◌^◌, ◌++◌, length, drop};
ghost use Rattle.cp_pages.specs.Pages.{pages_for};
ghost use Rattle.cp_pages.specs.Chain.{page_after, chain_content, IsWithin, HasNoRepeat, AreWhole, SameElsewhere};

use crate::pool::PAGE;

/// How many pages a content of this length needs.
pub(crate) fn pages_for(len: usize) -> u32
    requires { pages_for len < 2 ^ 32 }
    ensures { result ≡ pages_for len }
{
    len.div_ceil(PAGE) as u32
}

/// The page that is `steps` on from `page`.
pub(crate) fn page_after(next: &[u32], page: u32, steps: u32) -> u32
    requires { IsWithin next.now steps page }
    ensures { result ≡ page_after next.now steps page }
{
    let mut at = page;
    for _ in 0..steps {
        at = next[at as usize];
    }
    at
}

/// Writes a piece to the front of a page.
fn write_front(page: &mut [u8; PAGE], piece: &[u8])
    requires { length piece.now ≤ 1024 }
    ensures { page.new ≡ piece.now ++ drop (length piece.now) page.old }
{
    page[..piece.len()].copy_from_slice(piece);
}

/// Writes a content to the pages from `first` on, and answers the page that follows them.
pub(crate) fn write(pages: &mut [[u8; PAGE]], next: &[u32], first: u32, content: &[u8]) -> u32
    requires len { pages_for (length content.now) < 2 ^ 32 }
    requires pages { length pages.old ≡ length next.now }
    requires whole { AreWhole pages.old }
    requires inside { IsWithin next.now (pages_for (length content.now)) first }
    requires apart { HasNoRepeat next.now (pages_for (length content.now)) first }
    ensures after { result ≡ page_after next.now (pages_for (length content.now)) first }
    ensures content { let len = length content.now in
        chain_content pages.new next.now (pages_for len) first len ≡ content.now }
    ensures others { let count = pages_for (length content.now) in
        SameElsewhere pages.old pages.new next.now count first }
    ensures whole { AreWhole pages.new }
{
    let mut page = first;
    for i in 0..pages_for(content.len()) {
        let start = i as usize * PAGE;
        let end = content.len().min(start + PAGE);
        let piece = &content[start..end];
        write_front(&mut pages[page as usize], piece);
        page = next[page as usize];
    }
    page
}

/// Reads the content that the pages from `first` on have, in the length of `out`.
pub(crate) fn read(pages: &[[u8; PAGE]], next: &[u32], first: u32, out: &mut [u8])
    requires len { pages_for (length out.old) < 2 ^ 32 }
    requires pages { length pages.now ≡ length next.now }
    requires whole { AreWhole pages.now }
    requires inside { IsWithin next.now (pages_for (length out.old)) first }
    ensures { let len = length out.old in
        out.new ≡ chain_content pages.now next.now (pages_for len) first len }
{
    let mut page = first;
    for i in 0..pages_for(out.len()) {
        let start = i as usize * PAGE;
        let end = out.len().min(start + PAGE);
        out[start..end].copy_from_slice(&pages[page as usize][..end - start]);
        page = next[page as usize];
    }
}
