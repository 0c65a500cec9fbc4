// The texts of statements, a row's record and values, and what a schema has to declare, from the
// columns of a table. A table's file passes to a macro its name, its tree, its key, its columns,
// each with the word of SQL for its kind, and then what the use adds. The key is the first column
// (`Number`), the first two (`Pair`), or these two, and no two rows agree in the next three
// (`PairAndTriple`).

// Returns what a schema has to declare of a table.
macro_rules! declared {
    ($name:ident $tree:literal $key:ident [$($column:ident $kind:ident),*]) => {
        Declared {
            name: stringify!($name),
            tree: $tree,
            key: TableKey::$key,
            columns: &[$((stringify!($column), kind_of!($kind))),*],
        }
    };
}

// Returns the kind that a word of SQL names.
macro_rules! kind_of {
    (INTEGER) => {
        Kind::Integer
    };
    (BLOB) => {
        Kind::Blob
    };
}

// Returns the text of a query of a table's columns, with this end.
macro_rules! select {
    ($name:ident $tree:literal $key:ident [
        $first:ident $kind:ident $(, $column:ident $kinds:ident)*
    ] $end:literal) => {
        concat!(
            "SELECT ", stringify!($first), $(", ", stringify!($column),)*
            " FROM ", stringify!($name), $end
        )
    };
}

// Returns the text that lists a table: its columns, then the row's number, in the order of these
// numbers.
macro_rules! listing {
    ($name:ident $tree:literal $key:ident [$($column:ident $kind:ident),*]) => {
        concat!(
            "SELECT ", $(stringify!($column), ", ",)*
            "rowid FROM ", stringify!($name), " ORDER BY rowid"
        )
    };
}

// Returns the text that creates a table.
macro_rules! create_text {
    ($name:ident $tree:literal Number [
        $first:ident $kind:ident $(, $column:ident $kinds:ident)*
    ]) => {
        concat!(
            "CREATE TABLE ", stringify!($name), " (",
            stringify!($first), " ", stringify!($kind), " NOT NULL PRIMARY KEY",
            $(", ", stringify!($column), " ", stringify!($kinds), " NOT NULL",)*
            ") STRICT"
        )
    };
    ($name:ident $tree:literal Pair $columns:tt) => {
        $crate::texts::create_text!($name $columns)
    };
    ($name:ident $tree:literal PairAndTriple [
        $first:ident $a:ident, $second:ident $b:ident,
        $third:ident $c:ident, $fourth:ident $d:ident, $fifth:ident $e:ident
    ]) => {
        $crate::texts::create_text!($name [
            $first $a, $second $b, $third $c, $fourth $d, $fifth $e
        ] $third $fourth $fifth)
    };
    ($name:ident [
        $first:ident $a:ident, $second:ident $b:ident $(, $column:ident $kind:ident)*
    ] $($third:ident $fourth:ident $fifth:ident)?) => {
        concat!(
            "CREATE TABLE ", stringify!($name), " (",
            stringify!($first), " ", stringify!($a), " NOT NULL, ",
            stringify!($second), " ", stringify!($b), " NOT NULL, ",
            $(stringify!($column), " ", stringify!($kind), " NOT NULL, ",)*
            "PRIMARY KEY (", stringify!($first), ", ", stringify!($second), ")",
            $(", UNIQUE (", stringify!($third), ", ", stringify!($fourth), ", ",
                stringify!($fifth), ")",)?
            ") STRICT"
        )
    };
}

// Returns the values of a row.
macro_rules! values {
    ($name:ident $tree:literal $key:ident [$($column:ident $kind:ident),*] $row:expr) => {
        [$($row.$column),*].map(i64::from)
    };
}

// Returns the record of a row: its columns, then these fields.
macro_rules! record {
    ($name:ident $tree:literal $key:ident [$($column:ident $kind:ident),*]
        $type:ident $row:ident $($field:tt)*) => {
        $crate::texts::in_places!(record [$type $row $($field)*] $($column)*)
    };
    ([$type:ident $row:ident $($field:tt)*] $all:tt $([$column:ident $place:tt $mark:tt])*) => {
        $type { $($column: $row.get($place)?,)* $($field)* }
    };
}

// Returns the statements that insert one row and several, 1, 16 or 32.
macro_rules! inserts {
    ($name:ident $tree:literal $key:ident $columns:tt 1) => {
        InsertTexts {
            one: $crate::texts::insert!($name $tree $key $columns),
            many: $crate::texts::insert!($name $tree $key $columns),
        }
    };
    ($name:ident $tree:literal $key:ident $columns:tt $count:tt) => {
        InsertTexts {
            one: $crate::texts::insert!($name $tree $key $columns),
            many: $crate::texts::insert!($name $tree $key $columns $count),
        }
    };
}

// Returns the statement that inserts one row, or 16 or 32.
macro_rules! insert {
    ($name:ident $tree:literal $key:ident [$($column:ident $kind:ident),*]) => {
        $crate::texts::in_places!(insert [$name] $($column)*)
    };
    ($name:ident $tree:literal $key:ident [$($column:ident $kind:ident),*] 16) => {
        $crate::texts::in_places!(insert [
            $name ", " ", " ", " ", " ", " ", " ", " ", " ", " ", " ", " ", " ", " ", " ", "
        ] $($column)*)
    };
    ($name:ident $tree:literal $key:ident [$($column:ident $kind:ident),*] 32) => {
        $crate::texts::in_places!(insert [
            $name ", " ", " ", " ", " ", " ", " ", " ", " ", " ", " ", " ", " ", " ", " ", "
            ", " ", " ", " ", " ", " ", " ", " ", " ", " ", " ", " ", " ", " ", " ", " ", "
        ] $($column)*)
    };
    ([$name:ident] $all:tt
        [$first:ident $place:tt $mark:tt] $([$column:ident $places:tt $marks:tt])*) => {
        concat!(
            "INSERT INTO ", stringify!($name),
            " (", stringify!($first), $(", ", stringify!($column),)*
            ") VALUES (", $mark, $(", ", $marks,)* ")"
        )
    };
    ([$name:ident $($comma:literal)*] $all:tt
        [$first:ident $place:tt $mark:tt] $([$column:ident $places:tt $marks:tt])*) => {
        concat!(
            "INSERT INTO ", stringify!($name),
            " (", stringify!($first), $(", ", stringify!($column),)*
            ") VALUES ", $all, $($comma, $all),*
        )
    };
}

// Passes columns to a macro: the parameters of a row, if it has up to five, and then each column
// with its place and its parameter.
macro_rules! in_places {
    ($form:ident $of:tt $($column:ident)*) => {
        $crate::texts::in_places!($form $of "" [] [$($column)*] [
            0 "?1" "(?)" 1 "?2" "(?, ?)" 2 "?3" "(?, ?, ?)" 3 "?4" "(?, ?, ?, ?)"
            4 "?5" "(?, ?, ?, ?, ?)" 5 "?6" "" 6 "?7" "" 7 "?8" ""
        ])
    };
    ($form:ident $of:tt $all:tt [$($done:tt)*] [] $places:tt) => {
        $crate::texts::$form!($of $all $($done)*)
    };
    ($form:ident $of:tt $before:tt [$($done:tt)*] [$column:ident $($columns:ident)*]
        [$place:tt $mark:tt $all:tt $($places:tt)*]) => {
        $crate::texts::in_places!($form $of $all [$($done)* [$column $place $mark]]
            [$($columns)*] [$($places)*])
    };
}

pub(crate) use create_text;
pub(crate) use declared;
pub(crate) use in_places;
pub(crate) use insert;
pub(crate) use inserts;
pub(crate) use kind_of;
pub(crate) use listing;
pub(crate) use record;
pub(crate) use select;
pub(crate) use values;
