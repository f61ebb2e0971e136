// A site's record, and the records of all sites with their counts of messages, as rows of numbers
// in document 01's order (crate `record_numbers` has the definitions), and back.

#![tactic(auto)]

ghost use Rattle.std.specs.Prelude.{◌≡◌, ◌*◌, ◌<◌};
ghost use Rattle.std.proofs.lemmas.List.Edits.{sets};
ghost use Rattle.model.specs.Limits.{most_sites};
ghost use Rattle.record_numbers.specs.Numbers.{site_width, count_place, site_from, site_at, site_numbers, counts_from, sites_from, sites_numbers};

use model::{SITE_RECORDS, SiteRecord, Sites};

// How many numbers a site's record takes, and those of all sites with their counts behind them.
pub const SITE_NUMBERS: usize = 5;

pub const SITES_NUMBERS: usize = COUNT_PLACE + SITE_RECORDS;

// Where the first site's count of messages stands: after all records.
const COUNT_PLACE: usize = SITE_NUMBERS * SITE_RECORDS;

// A record of zeros.
const NO_RECORD: SiteRecord = SiteRecord {
    arrivals: 0,
    pending: 0,
    threshold: 0,
    used: 0,
    dropped: 0,
};

// The record of a row.
pub fn site_from(row: &[u64; SITE_NUMBERS]) -> SiteRecord
    ensures { result ≡ site_from row.now }
{
    SiteRecord {
        arrivals: row[0],
        pending: row[1],
        threshold: row[2],
        used: row[3],
        dropped: row[4],
    }
}

// The row of a record.
pub fn site_row(site: SiteRecord) -> [u64; SITE_NUMBERS]
    ensures { result ≡ site_numbers site }
{
    [
        site.arrivals,
        site.pending,
        site.threshold,
        site.used,
        site.dropped,
    ]
}

// The record of one site in the row of all. Internal: its callers test that there is such a site.
pub fn site_at(row: &[u64; SITES_NUMBERS], which: usize) -> SiteRecord
    requires { which < most_sites }
    ensures { result ≡ site_at row.now (site_width * which) }
{
    let at = SITE_NUMBERS * which;
    SiteRecord {
        arrivals: row[at],
        pending: row[at + 1],
        threshold: row[at + 2],
        used: row[at + 3],
        dropped: row[at + 4],
    }
}

// The record of one site stored in the row of all. Internal, as `site_at`.
pub fn store_site(row: &mut [u64; SITES_NUMBERS], which: usize, site: SiteRecord)
    requires { which < most_sites }
    ensures { row.new ≡ sets row.old (site_width * which) (site_numbers site) }
{
    let at = SITE_NUMBERS * which;
    row[at..at + SITE_NUMBERS].copy_from_slice(&site_row(site));
}

// The counts of messages in the row of all. Internal: a part of `sites_from`.
pub fn counts_in(row: &[u64; SITES_NUMBERS]) -> [u64; SITE_RECORDS]
    ensures { result ≡ counts_from most_sites count_place row.now }
{
    let mut counts = [0u64; SITE_RECORDS];
    counts.copy_from_slice(&row[COUNT_PLACE..]);
    counts
}

// The counts of messages stored in the row of all. Internal: a part of `sites_row`.
pub fn store_counts(row: &mut [u64; SITES_NUMBERS], counts: [u64; SITE_RECORDS])
    ensures { row.new ≡ sets row.old count_place (counts_from most_sites 0 counts) }
{
    row[COUNT_PLACE..].copy_from_slice(&counts);
}

// All records and the counts of messages.
pub fn sites_from(row: &[u64; SITES_NUMBERS]) -> Sites
    ensures { result ≡ sites_from row.now }
{
    let mut records = [NO_RECORD; SITE_RECORDS];
    for i in 0..SITE_RECORDS {
        records[i] = site_at(row, i);
    }
    Sites {
        records,
        messages: counts_in(row),
    }
}

// Their row.
pub fn sites_row(sites: Sites) -> [u64; SITES_NUMBERS]
    ensures { result ≡ sites_numbers sites }
{
    let mut row = [0u64; SITES_NUMBERS];
    for i in 0..SITE_RECORDS {
        store_site(&mut row, i, sites.records[i]);
    }
    store_counts(&mut row, sites.messages);
    row
}
