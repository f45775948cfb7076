//! The numbers of the bounds that contracts name. A constant of another number is refused here.

ghost use Rattle.std.specs.Prelude.{◌≡◌, pos};
ghost use Rattle.bike_fixed.specs.declared.moment.TheConstants.{LAST_MOMENT};
ghost use Rattle.bike_fixed.specs.declared.micro.TheConstants.{GREATEST_COORDINATE};
ghost use Rattle.bike_fixed.specs.declared.cents.TheConstants.{GREATEST_FARE};
ghost use Rattle.bike_fields.specs.declared.numbers.TheConstants as number;
ghost use Rattle.bike_fields.specs.declared.text_lengths.TheConstants as text;
ghost use Rattle.bike_fields.specs.declared.limits.TheConstants as catalogue;
ghost use Rattle.bike_fares.specs.declared.elapsed.TheConstants as rental;
ghost use Rattle.bike_ledger.specs.declared.sums.TheConstants.{GREATEST_BALANCE};
ghost use Rattle.bike_commands.specs.declared.request.TheConstants.{LINE_LENGTH};
ghost use Rattle.bike_operator.specs.declared.limits.TheConstants as limit;
ghost use Rattle.bike_recognition.specs.declared.earlier_versions.earlier.TheConstants.{MOST_DOCKS_BEFORE};
ghost use Rattle.bike_book.specs.declared.requests.TheConstants.{MOST_REQUESTS};
ghost use Rattle.bike_book.specs.declared.version.TheConstants.{NEWEST};
ghost use Rattle.bike_http_head.specs.declared.head.TheConstants.{HEAD_LENGTH, MOST_FIELDS};
ghost use Rattle.bike_http_head.specs.declared.length.TheConstants.{BODY_LENGTH};
ghost use Rattle.bike_http_request.specs.declared.input.TheConstants as http;
ghost use Rattle.bike_batch.specs.declared.lines.TheConstants as lines;
ghost use Rattle.bike_batch.specs.declared.import.TheConstants.{MOST_ROWS};
ghost use Rattle.bike_batch.specs.declared.input.TheConstants as csv;
ghost use Rattle.bike_stream.specs.declared.buffer.TheConstants.{READ_LENGTH};
ghost use Rattle.bike_queries.specs.declared.pages.TheConstants.{STATIONS_A_PAGE};

/// How many there may be of each record.
pub fn record_limits()
    // Plans, types, regions, and names in further languages.
    ensures plans { limit.MOST_PLANS ≡ 256 }
    ensures types { limit.MOST_TYPES ≡ 32 }
    ensures regions { limit.MOST_REGIONS ≡ 256 }
    ensures further_names { limit.MOST_FURTHER_NAMES ≡ 3 }
    // Stations, and docks of one, now and in earlier versions of the tables.
    ensures stations { limit.MOST_STATIONS ≡ 5000 }
    ensures docks { number.MOST_DOCKS ≡ 500 }
    ensures docks_before { MOST_DOCKS_BEFORE ≡ 200 }
    // The fleet, the riders, and what is never removed.
    ensures bikes { limit.MOST_BIKES ≡ 100000 }
    ensures trucks { limit.MOST_TRUCKS ≡ 1000 }
    ensures riders { limit.MOST_RIDERS ≡ 500000 }
    ensures orders { limit.MOST_ORDERS ≡ 10000000 }
    ensures entries { limit.MOST_ENTRIES ≡ 100000000 }
    ensures requests { MOST_REQUESTS ≡ 9223372036854775807 }
    // Segments of a plan; and the newest version of the tables.
    ensures segments { catalogue.MOST_SEGMENTS ≡ 8 }
    ensures version { NEWEST ≡ 4 }
{}

/// The greatest numbers of fields. Money is in hundredths, a coordinate in microdegrees, a time in seconds, a range in
/// metres.
pub fn number_bounds()
    // Numbers of records, and bicycles on a truck or in an order.
    ensures name { number.GREATEST_NUMBER ≡ 999999 }
    ensures serial { number.GREATEST_SERIAL ≡ 100000000 }
    ensures carried { number.MOST_CARRIED ≡ 60 }
    // A payment, and the fields of plans, types and the system.
    ensures payment { number.GREATEST_PAYMENT ≡ 1000000 }
    ensures price { number.GREATEST_PRICE ≡ 1000000 }
    ensures rate { catalogue.GREATEST_RATE ≡ 100000 }
    ensures minute { number.LAST_MINUTE ≡ 100000 }
    ensures range { number.GREATEST_RANGE ≡ 1000000 }
    ensures time_to_live { number.LONGEST_TIME_TO_LIVE ≡ 86400 }
    // Places and moments.
    ensures latitude { catalogue.GREATEST_LATITUDE ≡ 90000000 }
    ensures coordinate { GREATEST_COORDINATE ≡ 180000000 }
    ensures moment { LAST_MOMENT ≡ 253402300799 }
    // A fare, a balance, and the time that a fare charges.
    ensures fare { GREATEST_FARE ≡ pos 34561800000 }
    ensures balance { GREATEST_BALANCE ≡ pos 3456179965438200000 }
    ensures charged_seconds { rental.LONGEST ≡ 2592000 }
    ensures charged_minutes { rental.MINUTES ≡ 43201 }
{}

/// The lengths of texts in bytes, and how many fields a head has at most.
pub fn text_bounds()
    // Fields of records and requests.
    ensures ident { text.LONGEST_IDENT ≡ 36 }
    ensures key { text.LONGEST_KEY ≡ 64 }
    ensures shortest_language { text.SHORTEST_LANGUAGE ≡ 2 }
    ensures longest_language { text.LONGEST_LANGUAGE ≡ 35 }
    ensures currency { text.CURRENCY_LENGTH ≡ 3 }
    ensures name { text.LONGEST_NAME ≡ 120 }
    ensures ascii { text.LONGEST_ASCII ≡ 200 }
    // A line of input, and the head and body of an HTTP request.
    ensures line { LINE_LENGTH ≡ 4096 }
    ensures head { HEAD_LENGTH ≡ 8192 }
    ensures fields { MOST_FIELDS ≡ 32 }
    ensures body { BODY_LENGTH ≡ 16384 }
{}

/// How many reads of its input one call makes at most, how many bytes one read of lines asks for, how many rows an
/// import has, and how many stations a page of a feed.
pub fn input_bounds()
    // Reads that one call makes.
    ensures http_reads { http.MOST_READS ≡ 20000 }
    ensures line_reads { lines.MOST_READS ≡ 1000000000 }
    ensures import_reads { csv.MOST_TABLE_READS ≡ 1000000 }
    // Bytes that are read for a record of an import, and its rows.
    ensures import_record { csv.MOST_RECORD ≡ 65536 }
    ensures import_rows { MOST_ROWS ≡ 1000000 }
    // Bytes of a read of lines, and stations of a page.
    ensures line_read { READ_LENGTH ≡ 65536 }
    ensures page { STATIONS_A_PAGE ≡ 64 }
{}
