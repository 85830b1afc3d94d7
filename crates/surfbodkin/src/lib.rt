// The C archive: each answer is one number, as host/surfbodkin.h says.
#![tactic(auto)]

ghost use Rattle.std.specs.Prelude.{◌≡◌, ◌/◌, length};
ghost use Rattle.ari.specs.declared.Input.TheVariants.{Single, Message};
ghost use Rattle.ari.specs.Reader.{read};
ghost use Rattle.ari.specs.Limits.{gate_limits};
ghost use Rattle.reader.specs.Results.{result_of};
ghost use Rattle.sameness.specs.Sameness.{sameness};
ghost use Rattle.comparison.specs.Comparison.{comparison, compare_messages, room_after as compared_in};
ghost use Rattle.strike.specs.Strike.{struck_bytes, strike, room_after as struck_in};
ghost use Rattle.names.specs.Names.{check_names, number_for};
ghost use Rattle.day_file.specs.Day.{check_day, find_day, add_day, with_message, room_after as file_in};
ghost use Rattle.day_file.specs.Versions.{format_of, limits_of};
ghost use Rattle.day_upgrade.specs.Upgrade.{upgraded, upgrade_day};
ghost use Rattle.day_search.specs.Search.{search_day, hits, room_after as found_in};
ghost use Rattle.month.specs.Adding.{source_of};
ghost use Rattle.grants.specs.Bytes.{check_bytes};
ghost use Rattle.listing.specs.Answers.{list_of, written_of as listed_in};
ghost use Rattle.release.specs.Release.{release_bytes};
ghost use Rattle.release.specs.Compared.{count_after, counted_bytes};
ghost use Rattle.why_held.specs.Why.{why, answer_of as why_answer, outcome_in, why_room};
ghost use Rattle.text.specs.Answer.{write_text, read_text, lent};
ghost use Rattle.text_write.specs.Written.{written_of, room_after};
ghost use Rattle.answer_codes.specs.Code.{check_code, list_code, table_code, release_code, why_code, text_code, OpensAs, FeedsAs, ClosesAs, same_code, compare_code, names_code, number_code, number_after, day_code, find_code, add_code, search_code, strike_code, MonthOpensAs, AddsAs, ShowsAs};

#[unsafe(no_mangle)]
pub extern "C" fn surfbodkin_check_single(input: &[u8]) -> u64
    ensures { result ≡ check_code (result_of (read gate_limits Single input.now)) }
{
    answer_codes::check_code(reader::check_single(input))
}

#[unsafe(no_mangle)]
pub extern "C" fn surfbodkin_check_message(input: &[u8]) -> u64
    ensures { result ≡ check_code (result_of (read gate_limits Message input.now)) }
{
    answer_codes::check_code(reader::check_message(input))
}

#[unsafe(no_mangle)]
pub extern "C" fn surfbodkin_list(message: &[u8], out: &mut [u8]) -> u64
    ensures value { result ≡ list_code (list_of gate_limits message.now out.old) }
    ensures out_after { out.new ≡ listed_in gate_limits message.now out.old }
{
    answer_codes::list_code(listing::list_message(message, out))
}

#[unsafe(no_mangle)]
pub extern "C" fn surfbodkin_stream_open(state: &mut [u64]) -> u64
    ensures { OpensAs state.old result state.new }
{
    answer_codes::fed_code(stream::open(state))
}

#[unsafe(no_mangle)]
pub extern "C" fn surfbodkin_stream_feed(
    state: &mut [u64],
    message: &mut [u8],
    fragment: &[u8],
) -> u64
    ensures { FeedsAs gate_limits state.old message.old fragment.now result state.new message.new }
{
    answer_codes::fed_code(stream::feed(state, message, fragment))
}

#[unsafe(no_mangle)]
pub extern "C" fn surfbodkin_stream_close(state: &mut [u64], message: &[u8], out: &mut [u8]) -> u64
    ensures { ClosesAs gate_limits state.old message.now out.old result state.new out.new }
{
    answer_codes::list_code(stream::close(state, message, out))
}

#[unsafe(no_mangle)]
pub extern "C" fn surfbodkin_same(first: &[u8], second: &[u8]) -> u64
    ensures { result ≡ same_code (sameness gate_limits first.now second.now) }
{
    answer_codes::same_code(sameness::same(first, second))
}

#[unsafe(no_mangle)]
pub extern "C" fn surfbodkin_compare(first: &[u8], second: &[u8], out: &mut [u8]) -> u64
    ensures value { result ≡ compare_code (compare_messages gate_limits first.now second.now (length out.old / 24)) }
    ensures out_after { out.new ≡ compared_in (compare_messages gate_limits first.now second.now (length out.old / 24)) (comparison first.now second.now) out.old }
{
    answer_codes::compare_code(comparison::compare(first, second, out))
}

#[unsafe(no_mangle)]
pub extern "C" fn surfbodkin_check_names(published: &[u8], own: &[u8]) -> u64
    ensures { result ≡ names_code (check_names published.now own.now) }
{
    answer_codes::names_code(names::check_names(published, own))
}

#[unsafe(no_mangle)]
pub extern "C" fn surfbodkin_name_number<'a>(
    published: &'a [u8],
    own: &'a [u8],
    name: &[u8],
    number: &mut u64,
) -> u64
    ensures value { result ≡ number_code (number_for published.now own.now name.now) }
    ensures number_after { number.new ≡ number_after (number_for published.now own.now name.now) number.old }
{
    let a = names::number_for(published, own, name);
    answer_codes::put_number(a, number);
    answer_codes::number_code(a)
}

#[unsafe(no_mangle)]
pub extern "C" fn surfbodkin_check_table(table: &[u8]) -> u64
    ensures { result ≡ table_code (check_bytes table.now) }
{
    answer_codes::table_code(grants::check_table(table))
}

#[unsafe(no_mangle)]
pub extern "C" fn surfbodkin_release<'a>(
    message: &[u8],
    table: &[u8],
    published: &'a [u8],
    own: &'a [u8],
    subscriber: u64,
    compared: &mut u64,
) -> u64
    ensures value { result ≡ release_code (release_bytes gate_limits message.now table.now published.now own.now subscriber) }
    ensures compared_after { compared.new ≡ count_after (counted_bytes gate_limits message.now table.now published.now own.now subscriber) compared.old }
{
    let a = release::release_message(message, table, published, own, subscriber);
    answer_codes::put_compared(a, compared);
    answer_codes::release_code(a)
}

#[unsafe(no_mangle)]
pub extern "C" fn surfbodkin_why<'a>(
    message: &[u8],
    table: &[u8],
    published: &'a [u8],
    own: &'a [u8],
    subscriber: u64,
    out: &mut [u8],
) -> u64
    ensures value { result ≡ why_code (outcome_in (why_answer (why gate_limits message.now table.now published.now own.now subscriber)) (length out.old)) }
    ensures out_after { out.new ≡ why_room gate_limits message.now table.now published.now own.now subscriber out.old }
{
    answer_codes::why_code(why_held::why_bytes(message, table, published, own, subscriber, out))
}

#[unsafe(no_mangle)]
pub extern "C" fn surfbodkin_write_text(ari: &[u8], out: &mut [u8]) -> u64
    ensures value { result ≡ text_code (written_of (lent (length out.old) (write_text gate_limits ari.now))) }
    ensures out_after { out.new ≡ room_after out.old (lent (length out.old) (write_text gate_limits ari.now)) }
{
    answer_codes::text_code(text_write::write_text(ari, out))
}

#[unsafe(no_mangle)]
pub extern "C" fn surfbodkin_read_text(text: &[u8], out: &mut [u8]) -> u64
    ensures value { result ≡ text_code (written_of (lent (length out.old) (read_text gate_limits text.now))) }
    ensures out_after { out.new ≡ room_after out.old (lent (length out.old) (read_text gate_limits text.now)) }
{
    answer_codes::text_code(text_read::read_text(text, out))
}

#[unsafe(no_mangle)]
pub extern "C" fn surfbodkin_day_check(file: &[u8]) -> u64
    ensures { result ≡ day_code (check_day (format_of file.now) (limits_of file.now) file.now) }
{
    answer_codes::day_code(day_file::check(
        day_file::format_of(file),
        day_file::limits_of(file),
        file,
    ))
}

#[unsafe(no_mangle)]
pub extern "C" fn surfbodkin_day_find(file: &[u8], number: u64) -> u64
    ensures { result ≡ find_code (find_day (format_of file.now) (limits_of file.now) file.now number) }
{
    answer_codes::find_code(day_file::find(
        day_file::format_of(file),
        day_file::limits_of(file),
        file,
        number,
    ))
}

#[unsafe(no_mangle)]
pub extern "C" fn surfbodkin_day_add(file: &[u8], message: &[u8], out: &mut [u8]) -> u64
    ensures value { result ≡ add_code (add_day (format_of file.now) (limits_of file.now) file.now message.now (length out.old)) }
    ensures out_after { out.new ≡ file_in (add_day (format_of file.now) (limits_of file.now) file.now message.now (length out.old)) (with_message (format_of file.now) file.now message.now) out.old }
{
    answer_codes::add_code(day_file::add(
        day_file::format_of(file),
        day_file::limits_of(file),
        file,
        message,
        out,
    ))
}

#[unsafe(no_mangle)]
pub extern "C" fn surfbodkin_day_search<'a>(
    file: &[u8],
    published: &'a [u8],
    own: &'a [u8],
    namespace: u64,
    out: &mut [u8],
) -> u64
    ensures value { result ≡ search_code (search_day (format_of file.now) (limits_of file.now) file.now published.now own.now namespace (length out.old / 24)) }
    ensures out_after { out.new ≡ found_in (search_day (format_of file.now) (limits_of file.now) file.now published.now own.now namespace (length out.old / 24)) (hits (format_of file.now) file.now published.now own.now namespace) out.old }
{
    answer_codes::search_code(day_search::search(
        day_file::format_of(file),
        day_file::limits_of(file),
        file,
        published,
        own,
        namespace,
        out,
    ))
}

#[unsafe(no_mangle)]
pub extern "C" fn surfbodkin_day_upgrade(file: &[u8], out: &mut [u8]) -> u64
    ensures value { result ≡ add_code (upgrade_day file.now (length out.old)) }
    ensures out_after { out.new ≡ file_in (upgrade_day file.now (length out.old)) (upgraded file.now) out.old }
{
    answer_codes::add_code(day_upgrade::upgrade(file, out))
}

#[unsafe(no_mangle)]
pub extern "C" fn surfbodkin_strike(message: &[u8], number: u64, out: &mut [u8]) -> u64
    ensures value { result ≡ strike_code (strike gate_limits number message.now (length out.old)) }
    ensures out_after { out.new ≡ struck_in (strike gate_limits number message.now (length out.old)) (struck_bytes number message.now) out.old }
{
    answer_codes::strike_code(strike::strike_message(message, number as usize, out))
}

#[unsafe(no_mangle)]
pub extern "C" fn surfbodkin_month_open(state: &mut [u64]) -> u64
    ensures { MonthOpensAs state.old result state.new }
{
    answer_codes::month_code(month_figures::open(state))
}

#[unsafe(no_mangle)]
pub extern "C" fn surfbodkin_month_add<'a>(
    state: &mut [u64],
    file: &[u8],
    published: &'a [u8],
    own: &'a [u8],
) -> u64
    ensures { AddsAs (limits_of file.now) state.old (source_of (format_of file.now) file.now published.now own.now) result state.new }
{
    answer_codes::month_code(month::add(state, file, published, own))
}

#[unsafe(no_mangle)]
pub extern "C" fn surfbodkin_month_read(state: &[u64], out: &mut [u8]) -> u64
    ensures { ShowsAs state.now out.old result out.new }
{
    answer_codes::shown_code(month_figures::show(state, out))
}
