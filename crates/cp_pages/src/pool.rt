ghost use Rattle.std.specs.Prelude.{◌≡◌, ◌<◌, ◌≤◌, ◌+◌, ◌^◌, ◌↔◌, length, map, replicate, None, IfOk, IfErr, OnOk, OnErr, IsErr};
ghost use Rattle.std.specs.List.{range_with_len};
ghost use Rattle.cp_pages.specs.Pages.{pages_for, content_of, IsLive, IsPlaced, IsGivenBack, IsPaged, free_pages, taken_pages};
ghost use Rattle.cp_pages.specs.History.{LiveRunsStay, NewRunsAreApart};

use crate::pool_full::PoolFull;
use crate::run::Run;
use crate::{OutOfMemory, chain};
use std::alloc::Global;
use std::marker::Model;

/// The bytes of a page.
pub const PAGE: usize = 1024;

/// A fixed number of pages, and the contents that are placed in them.
#[derive(Drop)]
pub struct Pool {
    /// The bytes of each page.
    pages: Vec<[u8; PAGE]>,
    /// For each page the page after it, in its run or among the free pages.
    next: Vec<u32>,
    /// For each page the length of the content that begins there, 0 where none does.
    lengths: Vec<usize>,
    /// The first free page, if any page is free.
    first_free: u32,
    /// How many pages are free.
    free: u32,
}

// Clauses see the live runs, each at the page where it begins.
impl Model for Pool {
    ghost use Rattle.cp_pages.specs.Pages.{Pages};
    ghost use Rattle.cp_pages.specs.Layout.{runs_from, IsLaidOut};

    ghost Value = { Pages };

    ghost view = { λ pool. runs_from pool.pages.items pool.next.items 0 pool.lengths.items };

    ghost invariant = { λ pool.
        IsLaidOut pool.pages.items pool.next.items pool.lengths.items pool.first_free pool.free };
}

/// So many pages of zeros.
fn blank_pages(alloc: Global, pages: u32) -> Result<Vec<[u8; PAGE]>, OutOfMemory>
    ensures { IfOk result (λ blank. blank.items ≡ replicate pages (replicate PAGE 0)) }
{
    let mut blank = Vec::with_capacity(alloc, pages as usize)?;
    for _ in 0..pages {
        blank.push([0; PAGE])?;
    }
    Ok(blank)
}

/// Each page's number is followed by the next.
fn links(alloc: Global, pages: u32) -> Result<Vec<u32>, OutOfMemory>
    ensures { IfOk result (λ next. next.items ≡ map (λ page. page + 1) (range_with_len 0 pages)) }
{
    (0..pages).map(|page| page + 1).collect(alloc)
}

impl Pool {
    /// A pool of `pages` free pages. This call alone takes memory, all that the pool ever has.
    pub fn new(alloc: Global, pages: u32) -> Result<Pool, OutOfMemory>
        ensures { IfOk result (λ pool. pool ≡ replicate pages None) }
    {
        Ok(Pool {
            pages: blank_pages(alloc, pages)?,
            next: links(alloc, pages)?,
            lengths: vec![in alloc; 0; pages as usize]?,
            first_free: 0,
            free: pages,
        })
    }

    /// Places a content in as many free pages as it needs, a page for each 1,024 bytes it has or
    /// begins. It is refused exactly where fewer pages are free than it needs, and then nothing
    /// changes.
    pub fn place(&mut self, bytes: &[u8]) -> Result<Run, PoolFull>
        requires { length bytes.now ≤ 2 ^ 32 }
        ensures placed { IfOk result (λ run. IsPlaced self.old self.new bytes.now run) }
        ensures taken { let need = pages_for (length bytes.now) in
            OnOk result (taken_pages self.new ≡ taken_pages self.old + need) }
        ensures full { IsErr result ↔ (free_pages self.old < pages_for (length bytes.now)) }
        ensures free { IfErr result (λ refusal. refusal.free ≡ free_pages self.old) }
        ensures need { IfErr result (λ refusal. refusal.need ≡ pages_for (length bytes.now)) }

        ensures err { OnErr result (self.new ≡ self.old) }
    {
        let need = chain::pages_for(bytes.len());
        if self.free < need {
            return Err(PoolFull {
                free: self.free,
                need,
            });
        }
        if bytes.is_empty() {
            return Ok(Run { first: 0, len: 0 });
        }
        let first = self.first_free;
        self.first_free = chain::write(&mut self.pages, &self.next, first, bytes);
        self.free -= need;
        self.lengths[first as usize] = bytes.len();
        Ok(Run {
            first,
            len: bytes.len(),
        })
    }

    /// Writes the content of a live run to `out`, which has its length.
    pub fn read(&self, run: &Run, out: &mut [u8])
        requires live { IsLive self.now run.now }
        requires len { length out.old ≡ run.now.len }
        ensures { out.new ≡ content_of self.now run.now }
    {
        chain::read(&self.pages, &self.next, run.first, out);
    }

    /// Ends a live run: its pages are free again, and no others. A run that is not given back keeps
    /// its pages.
    pub fn give_back(&mut self, run: Run)
        requires { IsLive self.old run }
        ensures given_back { IsGivenBack self.old self.new run }
        ensures taken { taken_pages self.new + pages_for run.len ≡ taken_pages self.old }
    {
        let Run { first, len } = run;
        if len == 0 {
            return;
        }
        let rest = self.first_free;
        let need = chain::pages_for(len);
        let last = chain::page_after(&self.next, first, need - 1);
        self.next[last as usize] = rest;
        self.first_free = first;
        self.free += need;
        self.lengths[first as usize] = 0;
    }

    /// How many pages are free.
    pub fn free(&self) -> u32
        ensures free { result ≡ free_pages self.now }
        ensures total { result + taken_pages self.now ≡ length self.now }
    {
        self.free
    }

    /// Each live run has just the pages that its content needs, and no page is in two places. This
    /// is a law of every pool, and the call does nothing.
    pub fn pages_are_apart(&self)
        ensures { IsPaged self.now }
    {
        let _ = &self.free;
    }

    /// A live run reads as what was placed, whatever was placed or given back since, and what is
    /// placed is apart from every live run. This is a law of all pools, and the call does nothing.
    pub fn live_runs_stay()
        ensures stay { LiveRunsStay }
        ensures apart { NewRunsAreApart }
    {}
}
