//! What is reported of a race that has ended.

ghost use Rattle.std.specs.Prelude.{◌≡◌, ◌<◌, ◌++◌, length, map, IfOk, OnOk};
ghost use Rattle.std.specs.List.{flat_map};
ghost use Rattle.bind_buckets.specs.Closed.{count_in};
ghost use Rattle.list_words.specs.Lists.{Each, SameItems};
ghost use Rattle.race_run.specs.Finished.{HasFinished, as_known, listings_in, replies_in, told_in};
ghost use Rattle.race_run.specs.Lookers.{item_of};
ghost use Rattle.race_run.specs.Scripts.{IsForRace};
ghost use Rattle.race_run.specs.Shares.{items_in, put_all};
ghost use Rattle.race_run.specs.Told.{IsToldBy};
ghost use Rattle.race_record.specs.Lawful.{looked_at};
ghost use Rattle.turn_table.specs.Journals.{numbers_below};

use crate::finish::Ended;
use crate::jobs::Outcome;
use crate::looker::Look;
use bind_buckets::Bucket;
use capture_reader::Capture;
use chain_book::Change;
use flat_list::{Reply, Script};
use race_record::Looked;
use race_text::Record;
use sock_card::pack;
use sock_ops::ChainPass;
use socket_list::Listing;
use std::alloc::{AllocError, Global};
use table_rule::Pass;

/// Appends some replies.
fn put_replies(replies: &mut Vec<Reply>, more: &[Reply]) -> Result<(), AllocError>
    ensures { OnOk result (replies.new.items ≡ replies.old.items ++ more.now) }
{
    for reply in more {
        replies.push(*reply)?;
    }
    Ok(())
}

/// The replies of all sections, one section after the other.
fn all_replies(alloc: Global, outcomes: &[Outcome]) -> Result<Vec<Reply>, AllocError>
    ensures { IfOk result (λ replies. replies.items ≡ flat_map replies_in outcomes.now) }
{
    let mut replies = Vec::new(alloc);
    for outcome in outcomes {
        put_replies(&mut replies, &outcome.replies)?;
    }
    Ok(replies)
}

/// What all sections listed, one section after the other.
fn all_listings(alloc: Global, outcomes: Vec<Outcome>) -> Result<Vec<Listing>, AllocError>
    ensures { IfOk result (λ listings. listings.items ≡ flat_map listings_in outcomes.items) }
{
    let mut listings = Vec::new(alloc);
    for outcome in outcomes {
        let Outcome {
            listings: mut more,
            ..
        } = outcome;
        listings.append(&mut more)?;
    }
    Ok(listings)
}

/// Puts what came of some items at their places.
fn put_told(looked: &mut [Looked], told: &[Look])
    requires { Each (λ k. item_of k < length looked.old) told.now }
    ensures { looked.new ≡ put_all told.now looked.old }
{
    for look in told {
        looked[look.item as usize] = look.looked;
    }
}

/// What came of each of so many items, at the item's place.
fn all_told(alloc: Global, count: usize, outcomes: &[Outcome]) -> Result<Vec<Looked>, AllocError>
    requires once { SameItems (flat_map items_in outcomes.now) (numbers_below count) }
    ensures count { IfOk result (λ looked. length looked.items ≡ count) }
    ensures told { IfOk result
        (λ looked. Each (λ k. looked_at looked.items k.item ≡ k.looked) (flat_map told_in outcomes.now)) }
{
    let mut looked = vec![in alloc; Looked::Skip; count]?;
    for outcome in outcomes {
        put_told(&mut looked, &outcome.told);
    }
    Ok(looked)
}

/// How many entries the journal of each bucket has.
fn counts_of(alloc: Global, buckets: &[Box<Bucket>]) -> Result<Vec<u64>, AllocError>
    ensures { IfOk result (λ counts. counts.items ≡ map count_in buckets.now) }
{
    let mut counts = Vec::with_capacity(alloc, buckets.len())?;
    for bucket in buckets {
        counts.push(bucket.count() as u64)?;
    }
    Ok(counts)
}

/// The changes that lie in memory are those that the pass knows. It does nothing when it runs but to go through them.
fn know_changes(changes: &[Change])
    ensures { map as_known changes.now ≡ changes.now }
{
    for change in changes {
        let _words = pack(&change.card);
    }
}

/// What is reported of a race of that script that has ended.
///
/// # Errors
///
/// Memory ran out.
pub fn tell(
    alloc: Global,
    script: &Script,
    capture: &Capture,
    lookers: u32,
    passes: u32,
    ended: Ended,
) -> Result<Record, AllocError>
    requires script { IsForRace script.now }
    requires ended { HasFinished script.now passes capture.now.items lookers ended }
    ensures { IfOk result (IsToldBy script.now capture.now lookers passes ended) }
{
    let header = script.header();
    let Ended {
        chain,
        buckets,
        clock,
        outcomes,
    } = ended;
    let ChainPass { pass, .. } = chain;
    let Pass { changes, .. } = pass;
    let book = changes.into_list(alloc);
    let replies = all_replies(alloc, &outcomes)?;
    let looked = all_told(alloc, capture.items().len(), &outcomes)?;
    let journals = counts_of(alloc, &buckets)?;
    know_changes(&book);
    let listings = all_listings(alloc, outcomes)?;
    Ok(Record {
        lookers,
        passes,
        shape: header.shape,
        seed: header.seed,
        replies,
        listings,
        journals,
        book,
        looked,
        cut: capture.is_cut(),
        clock,
    })
}
