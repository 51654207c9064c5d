// The tables of the 945 and of the 953, as data: what is asked of each listed block.
#![tactic(auto)]

ghost use Rattle.std.specs.Prelude.{◌≡◌, [], ◌+◌, ◌≤◌};
ghost use Rattle.file_tables.specs.Table.{rule, within, equals, one_of, either_of, also, rules, no_subs, table_row, unit_row, title_row, settings_row, profiles_row, results_row, octave_row, third_row, statistics_row, histogram_row, band_rules, logger_row, unlisted, in_model, row_of};
ghost use Rattle.file_rules.specs.declared.More.TheVariants.{Nothing};

use file_rules::{Kind, More, Row, Rule, Rules, Subs};

// ---- rules and rows

fn rule(off: u16, kind: Kind, num: u8) -> Rule
    ensures { result ≡ rule off kind num }
{
    Rule {
        off,
        kind,
        num,
        from: 0,
        upto: 0,
    }
}

// Word `off` is `lo` to `hi`.
fn within(off: u16, lo: u16, hi: u16, num: u8) -> Rule
    ensures { result ≡ within off lo hi num }
{
    rule(off, Kind::Range { lo, hi }, num)
}

fn equals(off: u16, v: u16, num: u8) -> Rule
    ensures { result ≡ equals off v num }
{
    within(off, v, v, num)
}

fn one_of(off: u16, one: u16, two: u16, three: u16, num: u8) -> Rule
    ensures { result ≡ one_of off one two three num }
{
    rule(off, Kind::OneOf { one, two, three }, num)
}

fn either_of(off: u16, one: u16, two: u16, num: u8) -> Rule
    ensures { result ≡ either_of off one two num }
{
    one_of(off, one, two, two, num)
}

// Asked only where the function is `from` to `upto`.
fn also(from: u16, upto: u16, rule: Rule) -> Rule
    ensures { result ≡ also from upto rule }
{
    Rule { from, upto, ..rule }
}

// Fills up a list of rules, and is never asked.
const NO_RULE: Rule = Rule {
    off: 0,
    kind: Kind::Range { lo: 0, hi: 0 },
    num: 0,
    from: 0,
    upto: 0,
};

// Some rules, the list filled up to its four.
fn rules<const N: usize>(first: [Rule; N]) -> Rules
    requires { N ≤ 4 }
    ensures { result ≡ rules first.entry }
{
    let mut list = [NO_RULE; 4];
    list[..N].copy_from_slice(&first);
    Rules { count: N, list }
}

const NO_RULES: Rules = Rules {
    count: 0,
    list: [NO_RULE; 4],
};

const NO_SUBS: Subs = Subs {
    count: 0,
    id: 0,
    least: 0,
    rules: NO_RULES,
};

fn three_subs(id: u8, least: usize, rules: Rules) -> Subs
    ensures { result ≡ record { count = 3; id = id; least = least; rules = rules } }
{
    Subs {
        count: 3,
        id,
        least,
        rules,
    }
}

// Sub-blocks of which no word is asked.
fn three_bare(id: u8, least: usize) -> Subs
    ensures { result ≡ record { count = 3; id = id; least = least; rules = rules [] } }
{
    three_subs(id, least, NO_RULES)
}

fn row(least: usize, rules: Rules, more: More, subs: Subs) -> Row
    ensures { result ≡ table_row least rules more subs }
{
    Row {
        listed: true,
        least,
        exact: false,
        text: false,
        rules,
        more,
        logger: false,
        width: 0,
        subs,
    }
}

fn with_subs(least: usize, rules: Rules, subs: Subs) -> Row
    ensures { result ≡ table_row least rules Nothing subs }
{
    row(least, rules, More::Nothing, subs)
}

// Least words that depend on the block's own.
fn plain_more(least: usize, rules: Rules, more: More) -> Row
    ensures { result ≡ table_row least rules more no_subs }
{
    row(least, rules, more, NO_SUBS)
}

fn plain(least: usize, rules: Rules) -> Row
    ensures { result ≡ table_row least rules Nothing no_subs }
{
    plain_more(least, rules, More::Nothing)
}

// A block of which no word is asked.
fn bare(least: usize) -> Row
    ensures { result ≡ table_row least (rules []) Nothing no_subs }
{
    plain(least, NO_RULES)
}

// ---- the rows

// Tab. B.1.2, unit and software specification. A 953's has 10 words.
fn unit() -> Row
    ensures { result ≡ unit_row }
{
    plain_more(
        6,
        rules([either_of(2, 945, 953, 5)]),
        More::Where {
            at: 2,
            is: 953,
            words: 4,
        },
    )
}

// Tab. B.1.4, parameters and global settings.
fn settings(model: u16) -> Row
    ensures { result ≡ in_model model settings_row }
{
    if model == 953 {
        plain(
            28,
            rules([
                one_of(3, 1, 2, 4, 8),
                also(2, 2, one_of(14, 0, 2, 3, 8)),
                also(2, 2, within(15, 0, 1, 8)),
            ]),
        )
    } else {
        plain(
            23,
            rules([
                within(3, 1, 3, 8),
                also(2, 3, within(21, 0, 3, 8)),
                also(2, 3, within(22, 0, 1, 8)),
            ]),
        )
    }
}

// Tab. B.1.3, user's text.
fn title() -> Row
    ensures { result ≡ title_row }
{
    Row {
        text: true,
        ..bare(2)
    }
}

// Tab. B.1.5, special settings for profiles. Count 3 and mask 7 in word 1 of 05 and 07; mask 7 and count 3 in word 1 of 09.
fn profiles(model: u16) -> Row
    ensures { result ≡ in_model model profiles_row }
{
    let head = rules([equals(1, 0x0307, 6)]);
    if model == 953 {
        with_subs(
            20,
            head,
            three_subs(0x06, 6, rules([one_of(2, 0, 2, 3, 8), within(3, 0, 15, 8)])),
        )
    } else {
        with_subs(
            20,
            head,
            three_subs(0x06, 6, rules([within(2, 1, 4, 8), within(3, 0, 4, 8)])),
        )
    }
}

// Tab. B.1.6, main results.
fn results(model: u16) -> Row
    ensures { result ≡ in_model model results_row }
{
    let head = rules([equals(1, 0x0307, 6)]);
    if model == 953 {
        with_subs(47, head, three_bare(0x08, 15))
    } else {
        with_subs(44, head, three_bare(0x08, 14))
    }
}

// Tab. B.1.7, 1/1 octave analysis.
fn octave(model: u16) -> Row
    ensures { result ≡ in_model model octave_row }
{
    let head = equals(1, 0x0101, 6);
    if model == 953 {
        plain_more(
            5,
            rules([
                head,
                rule(2, Kind::Band, 8),
                rule(3, Kind::BandsFrom { first: 2 }, 8),
                within(4, 0, 3, 8),
            ]),
            More::Counts { at: 3 },
        )
    } else {
        plain(
            23,
            rules([head, equals(2, 100, 8), equals(3, 15, 8), equals(4, 3, 8)]),
        )
    }
}

// Tab. B.1.8, 1/3 octave analysis.
fn third() -> Row
    ensures { result ≡ third_row }
{
    plain(
        53,
        rules([
            equals(1, 0x0101, 6),
            equals(2, 80, 8),
            equals(3, 45, 8),
            equals(4, 3, 8),
        ]),
    )
}

// Tab. B.1.12, statistics header.
fn statistics() -> Row
    ensures { result ≡ statistics_row }
{
    with_subs(14, rules([equals(1, 0x0703, 6)]), three_bare(0x0A, 4))
}

// Tab. B.1.13, statistics. The long form is allowed.
pub fn histogram_row(classes: u16) -> Row
    ensures { result ≡ histogram_row classes }
{
    Row {
        exact: true,
        ..bare(2 * (classes as usize) + 2)
    }
}

// Words 3 to 5 of a logger header where a buffer record has bands: as words 2 to 4 of the spectrum.
fn band_rules(bands: u16) -> Rules
    ensures { result ≡ band_rules bands }
{
    match bands {
        18 => rules([equals(3, 100, 8), equals(4, 15, 8), equals(5, 3, 8)]),
        48 => rules([equals(3, 80, 8), equals(4, 45, 8), equals(5, 3, 8)]),
        _ => NO_RULES,
    }
}

// Tab. B.1.16, header of the file from the buffer, before records of `width` levels.
pub fn logger_row(bands: u16, profiles: u16) -> Row
    ensures { result ≡ logger_row (band_rules bands) (profiles + bands) }
{
    Row {
        logger: true,
        width: profiles as usize + bands as usize,
        ..plain(8, band_rules(bands))
    }
}

// A block that is not listed. Like `title`, it differs from `bare` in one field: no plainer as one function.
fn unlisted() -> Row
    ensures { result ≡ unlisted }
{
    Row {
        listed: false,
        ..bare(0)
    }
}

// The row of an id in a model, where no other block before it matters. Both are words of a file and no enums: it answers for any.
pub fn row_of(model: u16, id: u16) -> Row
    ensures { result ≡ row_of model id }
{
    match id {
        0x01 => bare(12),
        0x02 => unit(),
        0x03 => title(),
        0x04 => settings(model),
        0x05 => profiles(model),
        0x07 => results(model),
        0x0E => octave(model),
        0x10 => third(),
        0x09 => statistics(),
        0x0B => histogram_row(0),
        0x0F => logger_row(0, 0),
        _ => unlisted(),
    }
}
