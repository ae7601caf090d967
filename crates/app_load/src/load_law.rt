//! What a made session prints in a journal: the contract is the law.
ghost use Rattle.std.specs.Prelude.{ℕ, List, [], ◌+◌, Option, ◌≡◌, ◌≤◌, take, drop, map};
ghost use Rattle.std.specs.List.{concat};
ghost use Rattle.hpx_journal.specs.Data.{Parcel};
ghost use Rattle.hpx_journal.specs.declared.entry.Entry.{Entry};
ghost use Rattle.hpx_journal.specs.Laws.{HasGrammar};
ghost use Rattle.hpx_journal.specs.Pool.{NoneFails};
ghost use Rattle.hpx_journal.specs.Sessions.{IsSession, entries_of, shown};
ghost use Rattle.app_console.specs.Judging.{Acting, judging};
ghost use Rattle.app_console.specs.Text.{marked};
ghost use Rattle.app_load.specs.Load.{session_lines, errors_in, sum_in, texts_made, texts_asked};

/// Whatever the order in which frames come: where the lines of a made session of `space` are fed, each once nothing is
/// pending, and no action fails, as many of the lines behind the first eight print an error as the plain space says, and the
/// numbers that the queries print have the sum that it says.
pub fn load_law()
    ensures errors { (acts : Acting) (start count n log limit : ℕ) (parcel_of : List ℕ → Option Parcel) (blocks : List (List Entry)) →
        1 ≤ n → n ≤ 64 → count ≤ 20000 → HasGrammar (judging acts n log limit parcel_of) → NoneFails (entries_of blocks) →
        IsSession (judging acts n log limit parcel_of) [] (marked 115 (session_lines start count n)) blocks →
        errors_in (take count (drop 8 (map concat (shown blocks)))) ≡ errors_in (texts_made start count n) }
    ensures sum { (acts : Acting) (start count n log limit : ℕ) (parcel_of : List ℕ → Option Parcel) (blocks : List (List Entry)) →
        1 ≤ n → n ≤ 64 → count ≤ 20000 → HasGrammar (judging acts n log limit parcel_of) → NoneFails (entries_of blocks) →
        IsSession (judging acts n log limit parcel_of) [] (marked 115 (session_lines start count n)) blocks →
        sum_in (drop (8 + count) (map concat (shown blocks))) ≡ sum_in (texts_asked start count n) }
{}
