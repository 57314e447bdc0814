//! The laws can be called.

use lbk_rules::annex;
use lbk_ucd::LineBreak;

#[test]
fn laws_of_rules() {
    annex::spaces();
    annex::indicators();
    annex::heads();
    annex::opening_quotation();
    annex::closing_quotation();
    lbk_rules::laws::paragraph();
    lbk_rules::laws::look_ahead();
    lbk_rules::laws::look_ahead_second();
    lbk_rules::laws::unanswered_position();
    lbk_rules::laws::unanswered_alone();
    lbk_rules::laws::must_end();
    lbk_rules::laws::must_end_of_text();
    lbk_rules::laws::before_line_end();
    lbk_rules::laws::joined_mark();
    lbk_rules::laws::held_or_settled();
    lbk_rules::laws::machine_holds();
    lbk_rules::laws::answered_once();
    lbk_rules::laws::normal_cells();
}

#[test]
fn laws_of_files_and_runs() {
    lbk_feed::laws::text_max();
    lbk_feed::laws::limit_max();
    lbk_feed::laws::prefix_is_longest_text();
    lbk_feed::laws::prefix_behind_a_text();
    lbk_feed::laws::faults_exclude_each_other();
    lbk_ucd::laws::lines_say_what_the_grammar_has();
    lbk_ucd::laws::lines_make_up_the_file();
    lbk_ucd::laws::shared_codes_are_held::<LineBreak>();
    lbk_ucd::laws::files_have_one_fault_or_none::<LineBreak>();
    lbk_ucd::laws::kept_rows_are_apart::<LineBreak>();
    lbk_ucd::laws::lawful_files_want_memory();
    lbk_ucd::laws::samples_are_lawful();
    lbk_passage::laws::behind_an_earlier_text();
    lbk_passage::laws::run_begins();
    lbk_passage::laws::run_goes_on();
    lbk_passage::laws::run_ends();
    lbk_notation::file_laws::lines_make_up_the_file();
    lbk_notation::file_laws::one_replay_text();
    lbk_notation::file_laws::settled_text_stays();
    lbk_args::laws::accepted_words_ask_for_a_task();
    lbk_cmd::laws::shown_lines();
    lbk_cmd::laws::headline();
    lbk_cmd::laws::unicode_headline();
    lbk_cmd::laws::joined_ranges();
}
