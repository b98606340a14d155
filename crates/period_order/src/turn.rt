//! One turn: tokens move on the links of a leaf.

ghost use Rattle.std.specs.Prelude.{◌≡◌, ◌+◌, ◌*◌, ◌^◌, ◌<◌, ◌≤◌, ℕ, All, length, set, max};
ghost use Rattle.balanced_rates.specs.Balance.{IsAmong};
ghost use Rattle.balanced_rates.specs.Split.{at};
ghost use Rattle.period_order.specs.Board.{lacks, lacking, gives, takes, moved, link_at, IsTouching};

use balanced_rates::RatedLink;

/// The tokens on a link behind a firing of a leaf.
fn tokens_behind(link: &RatedLink, leaf: usize, tokens: u64) -> u64
    requires room { tokens + gives link.now leaf ≤ link.now.give * 4294967295 }
    requires enough { takes link.now leaf ≤ tokens }
    ensures { result ≡ moved link.now leaf tokens }
{
    let given = given_by(link, leaf);
    let taken = taken_by(link, leaf);
    tokens + given - taken
}

/// How many tokens a firing of a leaf gives on a link.
fn given_by(link: &RatedLink, leaf: usize) -> u64
    ensures given { result ≡ gives link.now leaf }
    ensures small { link.now.give ≤ 4294967295 }
{
    let give = u64::from(link.give);
    if link.writer as usize == leaf {
        give
    } else {
        0
    }
}

/// How many tokens a firing of a leaf takes from a link.
fn taken_by(link: &RatedLink, leaf: usize) -> u64
    ensures { result ≡ takes link.now leaf }
{
    if link.reader as usize == leaf {
        u64::from(link.need)
    } else {
        0
    }
}

/// On how many links the reader lacks tokens, once one has other tokens.
fn recounted(unmet: usize, link: &RatedLink, before: u64, now: u64) -> usize
    requires counted { lacks link.now before link.now.reader ≤ unmet }
    requires fits { unmet + 1 < 2 ^ 64 }
    ensures { result + lacks link.now before link.now.reader ≡ unmet + lacks link.now now link.now.reader }
{
    let lacked = before < u64::from(link.need);
    let lack = now < u64::from(link.need);
    if lacked && !lack {
        unmet - 1
    } else if lack && !lacked {
        unmet + 1
    } else {
        unmet
    }
}

/// Moves tokens on one link as a firing of a leaf does.
fn move_on(
    link: &RatedLink,
    l: usize,
    leaf: usize,
    unmet: &mut [usize],
    tokens: &mut [u64],
    peaks: &mut [u64],
)
    requires reader { link.now.reader < length unmet.old }
    requires tokens_at { l < length tokens.old }
    requires peaks_at { l < length peaks.old }
    requires room { at tokens.old l + gives link.now leaf ≤ link.now.give * 4294967295 }
    requires enough { takes link.now leaf ≤ at tokens.old l }
    requires counted { lacks link.now (at tokens.old l) link.now.reader ≤ at unmet.old link.now.reader }
    requires fits { at unmet.old link.now.reader + 1 < 2 ^ 64 }
    ensures tokens { tokens.new ≡ set tokens.old l (moved link.now leaf (at tokens.old l)) }
    ensures peaks { peaks.new ≡ set peaks.old l (max (at peaks.old l) (moved link.now leaf (at tokens.old l))) }
    ensures count { at unmet.new link.now.reader + lacks link.now (at tokens.old l) link.now.reader
        ≡ at unmet.old link.now.reader + lacks link.now (at tokens.new l) link.now.reader }
    ensures others { unmet.new ≡ set unmet.old link.now.reader (at unmet.new link.now.reader) }
{
    let before = tokens[l];
    let now = tokens_behind(link, leaf, before);
    let reader = link.reader as usize;
    let count = recounted(unmet[reader], link, before, now);
    unmet[reader] = count;
    tokens[l] = now;
    peaks[l] = peaks[l].max(now);
}

/// Moves tokens on the links of a leaf as its firing does.
pub(crate) fn fire(
    links: &[RatedLink],
    row: &[usize],
    leaf: usize,
    unmet: &mut [usize],
    tokens: &mut [u64],
    peaks: &mut [u64],
)
    requires among { All (IsAmong (length unmet.old)) links.now }
    requires sizes { length tokens.old ≡ length links.now }
    requires peaks_size { length peaks.old ≡ length links.now }
    requires touching { IsTouching links.now leaf row.now }
    requires unmet { (k : ℕ) → k < length unmet.old → at unmet.old k ≡ lacking links.now (at tokens.old) k }
    requires room { (l : ℕ) → l < length links.now → at tokens.old l + gives (link_at links.now l) leaf
        ≤ (link_at links.now l).give * 4294967295 }
    requires enough { (l : ℕ) → l < length links.now
        → takes (link_at links.now l) leaf ≤ at tokens.old l }
    requires peaks { (l : ℕ) → l < length links.now → at tokens.old l ≤ at peaks.old l }
    ensures unmet { (k : ℕ) → k < length unmet.old → at unmet.new k ≡ lacking links.now (at tokens.new) k }
    ensures tokens { (l : ℕ) → l < length links.now
        → at tokens.new l ≡ moved (link_at links.now l) leaf (at tokens.old l) }
    ensures peaks { (l : ℕ) → l < length links.now → at peaks.new l ≡ max (at peaks.old l) (at tokens.new l) }
{
    for l in row {
        move_on(&links[*l], *l, leaf, unmet, tokens, peaks);
    }
}
