//! The columns of each table, told once: `table!` gives what SQL and the code say of them.
//!
//! `specs/Rows` gives the rows, and `specs/Layouts` of `bike_schema` the same columns as the schema holds them.

/// What is said of a table: `table!(create regions)` is the statement that makes it, `insert` the one that adds a row,
/// with a parameter for each column, `name` its name in a database, `count` how many columns it has, and `kinds` the
/// array of their kinds, as `sqlite_schema` has them. A name that is a word of SQL stands between quotation marks.
#[macro_export]
macro_rules! table {
    ($part:ident meta) => { $crate::table_part! { $part meta (
        one INTEGER PRIMARY KEY,
        app TEXT NOT NULL,
        version INTEGER NOT NULL,
        now INTEGER NOT NULL,
        cash INTEGER NOT NULL,
        revenue INTEGER NOT NULL
    ) } };
    ($part:ident system) => { $crate::table_part! { $part system (
        one INTEGER PRIMARY KEY,
        system_id TEXT NOT NULL,
        language TEXT NOT NULL,
        name TEXT NOT NULL,
        hours TEXT NOT NULL,
        contact TEXT NOT NULL,
        zone TEXT NOT NULL,
        currency TEXT NOT NULL,
        base_url TEXT NOT NULL,
        ttl INTEGER NOT NULL
    ) } };
    ($part:ident plans) => { $crate::table_part! { $part plans (
        plan_id TEXT PRIMARY KEY NOT NULL,
        name TEXT NOT NULL,
        price INTEGER NOT NULL,
        taxable INTEGER NOT NULL,
        description TEXT NOT NULL
    ) } };
    ($part:ident segments) => { $crate::table_part! { $part segments (
        plan_id TEXT NOT NULL,
        seq INTEGER NOT NULL,
        start INTEGER NOT NULL,
        rate INTEGER NOT NULL,
        every INTEGER NOT NULL,
        finish INTEGER;
        PRIMARY KEY (plan_id, seq)
    ) } };
    ($part:ident types) => { $crate::table_part! { $part types (
        type_id TEXT PRIMARY KEY NOT NULL,
        name TEXT NOT NULL,
        form TEXT NOT NULL,
        propulsion TEXT NOT NULL,
        range_m INTEGER NOT NULL,
        plan_id TEXT NOT NULL
    ) } };
    ($part:ident regions) => { $crate::table_part! { $part regions (
        region_id TEXT PRIMARY KEY NOT NULL,
        name TEXT NOT NULL
    ) } };
    ($part:ident stations) => { $crate::table_part! { $part stations_4 (
        station_id TEXT PRIMARY KEY NOT NULL,
        name TEXT NOT NULL,
        lat INTEGER NOT NULL,
        lon INTEGER NOT NULL,
        docks INTEGER NOT NULL,
        installed INTEGER NOT NULL,
        renting INTEGER NOT NULL,
        "returning" INTEGER NOT NULL,
        reported INTEGER NOT NULL,
        free INTEGER NOT NULL,
        broken INTEGER NOT NULL,
        region_id TEXT,
        by_type TEXT NOT NULL
    ) } };
    ($part:ident docks) => { $crate::table_part! { $part docks (
        station_id TEXT NOT NULL,
        dock INTEGER NOT NULL,
        broken INTEGER NOT NULL;
        PRIMARY KEY (station_id, dock)
    ) } };
    ($part:ident bikes) => { $crate::table_part! { $part bikes (
        bike INTEGER PRIMARY KEY,
        type_id TEXT NOT NULL,
        state INTEGER NOT NULL,
        station_id TEXT,
        dock INTEGER,
        rental INTEGER,
        truck INTEGER,
        ord INTEGER
    ) } };
    ($part:ident trucks) => { $crate::table_part! { $part trucks (
        truck INTEGER PRIMARY KEY,
        capacity INTEGER NOT NULL
    ) } };
    ($part:ident riders) => { $crate::table_part! { $part riders_4 (
        rider INTEGER PRIMARY KEY,
        blocked INTEGER NOT NULL,
        balance INTEGER NOT NULL,
        before INTEGER NOT NULL,
        plan_id TEXT
    ) } };
    ($part:ident rentals) => { $crate::table_part! { $part rentals (
        rental INTEGER PRIMARY KEY,
        rider INTEGER NOT NULL,
        bike INTEGER NOT NULL,
        plan_id TEXT NOT NULL,
        from_station TEXT NOT NULL,
        start INTEGER NOT NULL,
        to_station TEXT,
        finish INTEGER,
        fare INTEGER,
        refunded INTEGER NOT NULL
    ) } };
    ($part:ident orders) => { $crate::table_part! { $part orders (
        ord INTEGER PRIMARY KEY,
        truck INTEGER NOT NULL,
        from_end TEXT NOT NULL,
        to_end TEXT NOT NULL,
        type_id TEXT NOT NULL,
        quantity INTEGER NOT NULL,
        delivered INTEGER NOT NULL,
        is_open INTEGER NOT NULL
    ) } };
    ($part:ident entries) => { $crate::table_part! { $part entries (
        entry INTEGER PRIMARY KEY,
        kind INTEGER NOT NULL,
        rider INTEGER NOT NULL,
        rental INTEGER NOT NULL,
        amount INTEGER NOT NULL,
        at INTEGER NOT NULL
    ) } };
    ($part:ident history) => { $crate::table_part! { $part history (
        number INTEGER PRIMARY KEY,
        moment INTEGER NOT NULL,
        caller TEXT NOT NULL,
        req_key TEXT NOT NULL,
        command TEXT NOT NULL,
        reply TEXT NOT NULL
    ) } };
    ($part:ident more_names) => { $crate::table_part! { $part more_names (
        kind TEXT NOT NULL,
        id TEXT NOT NULL,
        language TEXT NOT NULL,
        name TEXT NOT NULL;
        PRIMARY KEY (kind, id, language)
    ) } };
    ($part:ident books) => { $crate::table_part! { $part books (
        one INTEGER PRIMARY KEY,
        requests INTEGER NOT NULL,
        entries INTEGER NOT NULL,
        rentals INTEGER NOT NULL
    ) } };
}

/// A part of what is said of a table, from its columns.
#[macro_export]
macro_rules! table_part {
    (name $name:ident ($($columns:tt)*)) => { stringify!($name) };
    (create $name:ident (
        $first:tt $kind:ident $($word:ident)*
        $(, $column:tt $kinds:ident $($words:ident)*)*
        $(; PRIMARY KEY ($key:ident $(, $keys:ident)*))?
    )) => {
        concat!(
            "CREATE TABLE ", stringify!($name), " (",
            stringify!($first), " ", stringify!($kind) $(, " ", stringify!($word))*
            $(, ", ", stringify!($column), " ", stringify!($kinds) $(, " ", stringify!($words))*)*
            $(, ", PRIMARY KEY (", stringify!($key) $(, ", ", stringify!($keys))*, ")")?,
            ") STRICT"
        )
    };
    (insert $name:ident (
        $first:tt $kind:ident $($word:ident)*
        $(, $column:tt $kinds:ident $($words:ident)*)*
        $(; $($key:tt)*)?
    )) => {
        $crate::table_part! { insert $name [] $($column)* }
    };
    (insert $name:ident [$($more:literal)*] $column:tt $($columns:tt)*) => {
        $crate::table_part! { insert $name [$($more)* ", ?"] $($columns)* }
    };
    (insert $name:ident [$($more:literal)*]) => {
        concat!("INSERT INTO ", stringify!($name), " VALUES (?" $(, $more)*, ")")
    };
    (count $name:ident ($($column:tt $kind:ident $($word:ident)*),* $(; $($key:tt)*)?)) => {
        0 $(+ $crate::table_part!(one $column))*
    };
    (one $column:tt) => { 1 };
    (kinds $name:ident ($($column:tt $kind:ident $($word:ident)*),* $(; $($key:tt)*)?)) => {
        [$($crate::table_part!($kind)),*]
    };
    (INTEGER) => { sqlite_schema::schema::Kind::Integer };
    (TEXT) => { sqlite_schema::schema::Kind::Text };
}
