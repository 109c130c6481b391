ghost use Rattle.std.specs.Prelude.{◌≡◌, ◌≢◌, ◌⊎◌, ◌≤◌, ◌++◌, ◌↔◌, ℕ, List, Some, None};
ghost use Rattle.s3_base.specs.Faults.{HasRisen};
ghost use Rattle.s3_base.specs.Stream.{Stream};
ghost use Rattle.op_frames.specs.Replay.{Ended, Refused, replay_of};
ghost use Rattle.offline_tool.specs.Output.{EndsWith, HasVerdict};
ghost use Rattle.offline_tool.specs.Words.{Limits, limits_of};

use crate::replay::replay;
use crate::words::replay_words;
use s3_base::{Sink, Source, WordList};
use std::alloc::Global;

/// The status of words that are of no command.
const BAD_WORDS: u8 = 2;

/// Does what the words say, and answers the exit status: 0 done, 1 a fault of source or sink, 2 the words are of no
/// command, 3 no memory, 4 the input is refused. The one command is `replay B CACHE SLOTS`.
pub fn run<S: Source, T: Sink>(alloc: Global, words: &WordList, source: &mut S, sink: &mut T) -> u8
    ensures status { result ≤ 4 }

    // 2 exactly where the words are of no command; then nothing is read and nothing is written.
    ensures words { (result ≡ 2) ↔ (limits_of words.now ≡ None) }
    ensures nothing_read { result ≡ 2 → source.new ≡ source.old }
    ensures nothing_written { result ≡ 2 → sink.new ≡ sink.old }

    // 1 only where a count of faults rose in this call.
    ensures fault { result ≡ 1 → HasRisen (S.faults source.old) (S.faults source.new) ⊎ HasRisen (T.faults sink.old) (T.faults sink.new) }

    // Where the source tells its bytes: 0 only for an input that has an end, 4 only for one that is refused, and one of
    // the two unless a count rose or there is no memory.
    ensures verdict { (limits : Limits) (s : Stream) → limits_of words.now ≡ Some limits → S.told source.old ≡ Some s
        → HasVerdict result (replay_of s.left).verdict }
    ensures done { (limits : Limits) (s : Stream) → limits_of words.now ≡ Some limits → S.told source.old ≡ Some s
        → (replay_of s.left).verdict ≡ Ended → result ≢ 1 → (result ≡ 0) ⊎ (result ≡ 3) }
    ensures refused { (limits : Limits) (s : Stream) (place : ℕ) → limits_of words.now ≡ Some limits → S.told source.old ≡ Some s
        → (replay_of s.left).verdict ≡ Refused place → result ≢ 1 → (result ≡ 4) ⊎ (result ≡ 3) }

    // What is written, where source and sink tell their bytes: with 0 and 4 the answers of the core to all calls and that
    // of the verdict, and else a front of such an output. With 0 and 4 the fields of each reply are within their rules, so
    // that its frame is that of no other such reply.
    ensures output { (limits : Limits) (s : Stream) (before : List ℕ) → limits_of words.now ≡ Some limits
        → S.told source.old ≡ Some s → T.written sink.old ≡ Some before
        → (out : List ℕ) × (T.written sink.new ≡ Some (before ++ out)) × EndsWith limits.block_size s.left result out }
{
    match replay_words(words) {
        None => BAD_WORDS,
        Some(limits) => replay(alloc, &limits, source, sink),
    }
}
