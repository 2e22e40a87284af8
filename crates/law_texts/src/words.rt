//! Which command lines are taken.
ghost use Rattle.std.specs.Prelude.{◌≡◌, ℕ, List, true, false};
ghost use Rattle.pb_isa.specs.declared.profile.Profile.TheVariants.{One};
ghost use Rattle.pb_helpers.specs.declared.change.Version.TheVariants.{First};
ghost use Rattle.pb_texts.specs.CommandLines.{is_plain_word, is_workers, is_swaps, count_number, is_clock, clock_number, run_words, workers_words, swaps_words, replay_words, clock_words, asm_words, dis_words, check_words, Run, Replay, Asm, Dis, Check, AskFor, HaveBadValue, TakeProfiles, RefuseOtherProfiles, TakeVersions, RefuseOtherVersions};

/// A subcommand with as many words after it as it has operands, none of which begins with a hyphen, is taken. So is `run`
/// with `--workers` and a number of workers after them, or `--swaps` and a number of swaps, decimal digits alone, `replay`
/// with `--clock` and a number of `u64`, and `asm`, `dis` and `check` with `--profile` and 1 or 2, decimal digits alone;
/// with another such word there each is refused. Without `--profile` the profile is the first. So is `check` with
/// `--record` and 1 or 2.
pub fn plain_words_are_taken()
    ensures run { (program manifest script : List ℕ) → is_plain_word manifest ≡ true
        → is_plain_word script ≡ true
        → AskFor (run_words program manifest script) (Run manifest script 1 0) }
    ensures workers { (program manifest script workers : List ℕ) → is_plain_word manifest ≡ true
        → is_plain_word script ≡ true → is_workers workers ≡ true
        → AskFor (workers_words program manifest script workers)
        (Run manifest script (count_number workers) 0) }
    ensures other_workers { (program manifest script workers : List ℕ)
        → is_plain_word manifest ≡ true
        → is_plain_word script ≡ true → is_plain_word workers ≡ true → is_workers workers ≡ false
        → HaveBadValue (workers_words program manifest script workers) }
    ensures swaps { (program manifest script swaps : List ℕ) → is_plain_word manifest ≡ true
        → is_plain_word script ≡ true → is_swaps swaps ≡ true
        → AskFor (swaps_words program manifest script swaps)
        (Run manifest script 1 (count_number swaps)) }
    ensures other_swaps { (program manifest script swaps : List ℕ) → is_plain_word manifest ≡ true
        → is_plain_word script ≡ true → is_plain_word swaps ≡ true → is_swaps swaps ≡ false
        → HaveBadValue (swaps_words program manifest script swaps) }
    ensures replay { (program manifest script schedule : List ℕ) → is_plain_word manifest ≡ true
        → is_plain_word script ≡ true → is_plain_word schedule ≡ true
        → AskFor (replay_words program manifest script schedule)
        (Replay manifest script schedule 0) }
    ensures clock { (program manifest script schedule clock : List ℕ)
        → is_plain_word manifest ≡ true
        → is_plain_word script ≡ true → is_plain_word schedule ≡ true → is_clock clock ≡ true
        → AskFor (clock_words program manifest script schedule clock)
        (Replay manifest script schedule (clock_number clock)) }
    ensures other_clock { (program manifest script schedule clock : List ℕ)
        → is_plain_word manifest ≡ true
        → is_plain_word script ≡ true → is_plain_word schedule ≡ true → is_plain_word clock ≡ true
        → is_clock clock ≡ false → HaveBadValue
        (clock_words program manifest script schedule clock) }
    ensures asm { (program input output : List ℕ) → is_plain_word input ≡ true
        → is_plain_word output ≡ true
        → AskFor (asm_words program input output) (Asm input output One) }
    ensures asm_profile { (program input output : List ℕ) → is_plain_word input ≡ true
        → is_plain_word output ≡ true
        → TakeProfiles (asm_words program input output) (Asm input output) }
    ensures other_asm_profile { (program input output : List ℕ) → is_plain_word input ≡ true
        → is_plain_word output ≡ true → RefuseOtherProfiles (asm_words program input output) }
    ensures dis { (program file : List ℕ) → is_plain_word file ≡ true
        → AskFor (dis_words program file) (Dis file One) }
    ensures dis_profile { (program file : List ℕ) → is_plain_word file ≡ true
        → TakeProfiles (dis_words program file) (Dis file) }
    ensures other_dis_profile { (program file : List ℕ) → is_plain_word file ≡ true
        → RefuseOtherProfiles (dis_words program file) }
    ensures check { (program file : List ℕ) → is_plain_word file ≡ true
        → AskFor (check_words program file) (Check file One First) }
    ensures check_profile { (program file : List ℕ) → is_plain_word file ≡ true
        → TakeProfiles (check_words program file) (λ profile. Check file profile First) }
    ensures other_check_profile { (program file : List ℕ) → is_plain_word file ≡ true
        → RefuseOtherProfiles (check_words program file) }
    ensures check_record { (program file : List ℕ) → is_plain_word file ≡ true
        → TakeVersions (check_words program file) (Check file One) }
    ensures other_check_record { (program file : List ℕ) → is_plain_word file ≡ true
        → RefuseOtherVersions (check_words program file) }
{}
