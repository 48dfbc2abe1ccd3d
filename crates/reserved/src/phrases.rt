// The reserved phrases by their first letter and the length of their first word, in the order in which they are tried. Made by
// tools/phrases.py from the lists in specs/.
ghost use Rattle.std.specs.Prelude.{◌≡◌, ℕ};
ghost use Rattle.reserved.specs.Inner.Entries.{entries, entries_of, entries_long, listed_at};

use crate::entries::{Entry, Group};

const DOLLAR_0: &[Entry] = &[Entry(Group::NoIndent, "$$")];

const DOLLAR: &[&[Entry]] = &[DOLLAR_0];

const A_2: &[Entry] = &[Entry(Group::Plain, "AS")];

const A_3: &[Entry] = &[
    Entry(Group::Newline, "AND"),
    Entry(Group::Newline, "ADD"),
    Entry(Group::Join, "ANY JOIN"),
    Entry(Group::Plain, "ALL"),
    Entry(Group::Plain, "ASC"),
];

const A_4: &[Entry] = &[Entry(Group::Join, "ASOF JOIN")];

const A_5: &[Entry] = &[
    Entry(Group::TopLevel, "AFTER"),
    Entry(Group::TopLevel, "ALTER AGGREGATE"),
    Entry(Group::TopLevel, "ALTER FUNCTION"),
    Entry(Group::TopLevel, "ALTER LANGUAGE"),
    Entry(Group::TopLevel, "ALTER PROCEDURE"),
    Entry(Group::TopLevel, "ALTER RULE"),
    Entry(Group::TopLevel, "ALTER TRIGGER"),
    Entry(Group::TopLevel, "ALTER VIEW"),
    Entry(Group::TopLevel, "ALTER TABLE"),
    Entry(Group::TopLevel, "ALTER INDEX"),
    Entry(Group::Newline, "ALTER"),
    Entry(Group::Plain, "ALTER"),
];

const A_6: &[Entry] = &[Entry(Group::Plain, "ACTION")];

const A_7: &[Entry] = &[
    Entry(Group::Plain, "AGAINST"),
    Entry(Group::Plain, "ANALYSE"),
    Entry(Group::Plain, "ANALYZE"),
];

const A_9: &[Entry] = &[
    Entry(Group::Plain, "AGGREGATE"),
    Entry(Group::Plain, "ALGORITHM"),
];

const A_10: &[Entry] = &[
    Entry(Group::Plain, "ACCESSIBLE"),
    Entry(Group::Plain, "AUTOCOMMIT"),
];

const A_14: &[Entry] = &[Entry(Group::Plain, "AUTO_INCREMENT")];

const A: &[&[Entry]] = &[
    &[],
    &[],
    A_2,
    A_3,
    A_4,
    A_5,
    A_6,
    A_7,
    &[],
    A_9,
    A_10,
    &[],
    &[],
    &[],
    A_14,
];

const B_4: &[Entry] = &[Entry(Group::Plain, "BOTH")];

const B_5: &[Entry] = &[Entry(Group::NoIndent, "BEGIN")];

const B_6: &[Entry] = &[Entry(Group::Plain, "BACKUP"), Entry(Group::Plain, "BINLOG")];

const B_7: &[Entry] = &[Entry(Group::Plain, "BETWEEN")];

const B: &[&[Entry]] = &[&[], &[], &[], &[], B_4, B_5, B_6, B_7];

const C_4: &[Entry] = &[Entry(Group::Plain, "CASE")];

const C_5: &[Entry] = &[
    Entry(Group::Newline, "CROSS APPLY"),
    Entry(Group::Join, "CROSS JOIN"),
    Entry(Group::Plain, "CHECK"),
    Entry(Group::Plain, "CROSS"),
];

const C_6: &[Entry] = &[
    Entry(Group::TopLevel, "CREATE OR REPLACE AGGREGATE"),
    Entry(Group::TopLevel, "CREATE OR REPLACE FUNCTION"),
    Entry(Group::TopLevel, "CREATE OR REPLACE LANGUAGE"),
    Entry(Group::TopLevel, "CREATE OR REPLACE PROCEDURE"),
    Entry(Group::TopLevel, "CREATE OR REPLACE RULE"),
    Entry(Group::TopLevel, "CREATE OR REPLACE TRIGGER"),
    Entry(Group::TopLevel, "CREATE OR REPLACE VIEW"),
    Entry(Group::TopLevel, "CREATE AGGREGATE"),
    Entry(Group::TopLevel, "CREATE FUNCTION"),
    Entry(Group::TopLevel, "CREATE LANGUAGE"),
    Entry(Group::TopLevel, "CREATE PROCEDURE"),
    Entry(Group::TopLevel, "CREATE RULE"),
    Entry(Group::TopLevel, "CREATE TRIGGER"),
    Entry(Group::TopLevel, "CREATE VIEW"),
    Entry(Group::TopLevel, "CREATE UNIQUE INDEX"),
    Entry(Group::TopLevel, "CREATE INDEX"),
    Entry(Group::TopLevel, "CREATE UNLOGGED TABLE"),
    Entry(Group::TopLevel, "CREATE GLOBAL TEMPORARY TABLE"),
    Entry(Group::TopLevel, "CREATE GLOBAL TEMP TABLE"),
    Entry(Group::TopLevel, "CREATE GLOBAL TABLE"),
    Entry(Group::TopLevel, "CREATE LOCAL TEMPORARY TABLE"),
    Entry(Group::TopLevel, "CREATE LOCAL TEMP TABLE"),
    Entry(Group::TopLevel, "CREATE LOCAL TABLE"),
    Entry(Group::TopLevel, "CREATE TABLE"),
    Entry(Group::Plain, "CHANGE"),
    Entry(Group::Plain, "COLUMN"),
    Entry(Group::Plain, "COMMIT"),
    Entry(Group::Plain, "CREATE"),
];

const C_7: &[Entry] = &[
    Entry(Group::Plain, "CASCADE"),
    Entry(Group::Plain, "CHANGED"),
    Entry(Group::Plain, "CHARSET"),
    Entry(Group::Plain, "COLLATE"),
    Entry(Group::Plain, "COLUMNS"),
    Entry(Group::Plain, "COMMENT"),
    Entry(Group::Plain, "CONVERT"),
];

const C_8: &[Entry] = &[
    Entry(Group::Plain, "CHECKSUM"),
    Entry(Group::Plain, "CONTAINS"),
];

const C_9: &[Entry] = &[
    Entry(Group::Plain, "CHARACTER SET"),
    Entry(Group::Plain, "COLLATION"),
    Entry(Group::Plain, "COMMITTED"),
];

const C_10: &[Entry] = &[
    Entry(Group::Plain, "COMPRESSED"),
    Entry(Group::Plain, "CONCURRENT"),
    Entry(Group::Plain, "CONSTRAINT"),
];

const C_17: &[Entry] = &[Entry(Group::Plain, "CURRENT_TIMESTAMP")];

const C: &[&[Entry]] = &[
    &[],
    &[],
    &[],
    &[],
    C_4,
    C_5,
    C_6,
    C_7,
    C_8,
    C_9,
    C_10,
    &[],
    &[],
    &[],
    &[],
    &[],
    &[],
    C_17,
];

const D_2: &[Entry] = &[
    Entry(Group::NewlineAfter, "DO UPDATE SET"),
    Entry(Group::Plain, "DO NOTHING"),
    Entry(Group::Plain, "DO"),
];

const D_3: &[Entry] = &[Entry(Group::Plain, "DAY"), Entry(Group::Plain, "DIV")];

const D_4: &[Entry] = &[
    Entry(Group::Dropped, "DROP AGGREGATE"),
    Entry(Group::Dropped, "DROP FUNCTION"),
    Entry(Group::Dropped, "DROP LANGUAGE"),
    Entry(Group::Dropped, "DROP PROCEDURE"),
    Entry(Group::Dropped, "DROP RULE"),
    Entry(Group::Dropped, "DROP TRIGGER"),
    Entry(Group::Dropped, "DROP VIEW"),
    Entry(Group::Dropped, "DROP TABLE"),
    Entry(Group::Dropped, "DROP INDEX"),
    Entry(Group::Newline, "DROP"),
    Entry(Group::Plain, "DESC"),
    Entry(Group::Plain, "DROP"),
];

const D_6: &[Entry] = &[
    Entry(Group::TopLevel, "DELETE FROM"),
    Entry(Group::Plain, "DELETE"),
];

const D_7: &[Entry] = &[
    Entry(Group::Newline, "DISABLE"),
    Entry(Group::NoIndent, "DECLARE"),
    Entry(Group::Plain, "DEFAULT"),
    Entry(Group::Plain, "DEFINER"),
    Entry(Group::Plain, "DELAYED"),
    Entry(Group::Plain, "DYNAMIC"),
];

const D_8: &[Entry] = &[
    Entry(Group::Plain, "DISTINCT FROM"),
    Entry(Group::Plain, "DATABASE"),
    Entry(Group::Plain, "DAY_HOUR"),
    Entry(Group::Plain, "DESCRIBE"),
    Entry(Group::Plain, "DISTINCT"),
    Entry(Group::Plain, "DUMPFILE"),
];

const D_9: &[Entry] = &[
    Entry(Group::Plain, "DATABASES"),
    Entry(Group::Plain, "DUPLICATE"),
];

const D_10: &[Entry] = &[
    Entry(Group::Plain, "DAY_MINUTE"),
    Entry(Group::Plain, "DAY_SECOND"),
];

const D_11: &[Entry] = &[Entry(Group::Plain, "DISTINCTROW")];

const D_13: &[Entry] = &[Entry(Group::Plain, "DETERMINISTIC")];

const D: &[&[Entry]] = &[
    &[],
    &[],
    D_2,
    D_3,
    D_4,
    &[],
    D_6,
    D_7,
    D_8,
    D_9,
    D_10,
    D_11,
    &[],
    D_13,
];

const E_3: &[Entry] = &[Entry(Group::Plain, "END")];

const E_4: &[Entry] = &[
    Entry(Group::Newline, "ELSE"),
    Entry(Group::Plain, "ELSE"),
    Entry(Group::Plain, "EXEC"),
];

const E_6: &[Entry] = &[
    Entry(Group::TopLevel, "EXCEPT"),
    Entry(Group::Newline, "ENABLE"),
    Entry(Group::Plain, "ENGINE"),
    Entry(Group::Plain, "ESCAPE"),
    Entry(Group::Plain, "EVENTS"),
    Entry(Group::Plain, "EXISTS"),
];

const E_7: &[Entry] = &[
    Entry(Group::Plain, "ENGINES"),
    Entry(Group::Plain, "ESCAPED"),
    Entry(Group::Plain, "EXECUTE"),
    Entry(Group::Plain, "EXPLAIN"),
];

const E_8: &[Entry] = &[
    Entry(Group::Plain, "ENCLOSED"),
    Entry(Group::Plain, "EXTENDED"),
];

const E_11: &[Entry] = &[Entry(Group::Plain, "ENGINE_TYPE")];

const E: &[&[Entry]] = &[&[], &[], &[], E_3, E_4, &[], E_6, E_7, E_8, &[], &[], E_11];

const F_3: &[Entry] = &[
    Entry(Group::TopLevel, "FOR UPDATE"),
    Entry(Group::TopLevel, "FOR NO KEY UPDATE"),
    Entry(Group::TopLevel, "FOR SHARE"),
    Entry(Group::TopLevel, "FOR KEY SHARE"),
    Entry(Group::Plain, "FOR"),
];

const F_4: &[Entry] = &[
    Entry(Group::TopLevel, "FROM"),
    Entry(Group::Join, "FULL JOIN"),
    Entry(Group::Join, "FULL OUTER JOIN"),
    Entry(Group::Plain, "FAST"),
    Entry(Group::Plain, "FILE"),
    Entry(Group::Plain, "FULL"),
];

const F_5: &[Entry] = &[
    Entry(Group::TopLevel, "FETCH FIRST"),
    Entry(Group::Plain, "FETCH"),
    Entry(Group::Plain, "FIRST"),
    Entry(Group::Plain, "FIXED"),
    Entry(Group::Plain, "FLUSH"),
    Entry(Group::Plain, "FORCE"),
];

const F_6: &[Entry] = &[Entry(Group::Plain, "FIELDS")];

const F_7: &[Entry] = &[Entry(Group::Plain, "FOREIGN")];

const F_8: &[Entry] = &[
    Entry(Group::Plain, "FULLTEXT"),
    Entry(Group::Plain, "FUNCTION"),
];

const F: &[&[Entry]] = &[&[], &[], &[], F_3, F_4, F_5, F_6, F_7, F_8];

const G_2: &[Entry] = &[Entry(Group::TopLevel, "GO")];

const G_5: &[Entry] = &[
    Entry(Group::TopLevel, "GROUP BY"),
    Entry(Group::Plain, "GRANT"),
];

const G_6: &[Entry] = &[
    Entry(Group::Join, "GLOBAL INNER JOIN"),
    Entry(Group::Join, "GLOBAL LEFT JOIN"),
    Entry(Group::Join, "GLOBAL RIGHT JOIN"),
    Entry(Group::Join, "GLOBAL FULL JOIN"),
    Entry(Group::Plain, "GLOBAL"),
    Entry(Group::Plain, "GRANTS"),
];

const G_12: &[Entry] = &[Entry(Group::Plain, "GROUP_CONCAT")];

const G: &[&[Entry]] = &[
    &[],
    &[],
    G_2,
    &[],
    &[],
    G_5,
    G_6,
    &[],
    &[],
    &[],
    &[],
    &[],
    G_12,
];

const H_4: &[Entry] = &[Entry(Group::Plain, "HEAP"), Entry(Group::Plain, "HOUR")];

const H_5: &[Entry] = &[Entry(Group::Plain, "HOSTS")];

const H_6: &[Entry] = &[Entry(Group::TopLevel, "HAVING")];

const H_11: &[Entry] = &[
    Entry(Group::Plain, "HOUR_MINUTE"),
    Entry(Group::Plain, "HOUR_SECOND"),
];

const H_13: &[Entry] = &[Entry(Group::Plain, "HIGH_PRIORITY")];

const H: &[&[Entry]] = &[
    &[],
    &[],
    &[],
    &[],
    H_4,
    H_5,
    H_6,
    &[],
    &[],
    &[],
    &[],
    H_11,
    &[],
    H_13,
];

const I_2: &[Entry] = &[
    Entry(Group::Plain, "IF"),
    Entry(Group::Plain, "IN"),
    Entry(Group::Plain, "IS"),
];

const I_4: &[Entry] = &[Entry(Group::Plain, "INTO")];

const I_5: &[Entry] = &[
    Entry(Group::Join, "INNER JOIN"),
    Entry(Group::Join, "INNER ANY JOIN"),
    Entry(Group::Plain, "INDEX"),
];

const I_6: &[Entry] = &[
    Entry(Group::TopLevel, "INSERT INTO"),
    Entry(Group::TopLevel, "INSERT"),
    Entry(Group::Plain, "IFNULL"),
    Entry(Group::Plain, "IGNORE"),
    Entry(Group::Plain, "INFILE"),
    Entry(Group::Plain, "INSERT"),
];

const I_7: &[Entry] = &[
    Entry(Group::Plain, "INDEXES"),
    Entry(Group::Plain, "INVOKER"),
];

const I_8: &[Entry] = &[Entry(Group::Plain, "INTERVAL")];

const I_9: &[Entry] = &[
    Entry(Group::NoIndent, "INTERSECT ALL"),
    Entry(Group::NoIndent, "INTERSECT"),
    Entry(Group::Plain, "INSERT_ID"),
    Entry(Group::Plain, "ISOLATION"),
];

const I_10: &[Entry] = &[Entry(Group::Plain, "IDENTIFIED")];

const I_13: &[Entry] = &[Entry(Group::Plain, "INSERT_METHOD")];

const I: &[&[Entry]] = &[
    &[],
    &[],
    I_2,
    &[],
    I_4,
    I_5,
    I_6,
    I_7,
    I_8,
    I_9,
    I_10,
    &[],
    &[],
    I_13,
];

const J_4: &[Entry] = &[Entry(Group::Join, "JOIN")];

const J: &[&[Entry]] = &[&[], &[], &[], &[], J_4];

const K_3: &[Entry] = &[Entry(Group::Plain, "KEY")];

const K_4: &[Entry] = &[Entry(Group::Plain, "KEYS"), Entry(Group::Plain, "KILL")];

const K: &[&[Entry]] = &[&[], &[], &[], K_3, K_4];

const L_4: &[Entry] = &[
    Entry(Group::Join, "LEFT JOIN"),
    Entry(Group::Join, "LEFT OUTER JOIN"),
    Entry(Group::Join, "LEFT ANY JOIN"),
    Entry(Group::Join, "LEFT SEMI JOIN"),
    Entry(Group::Join, "LEFT ANTI JOIN"),
    Entry(Group::Join, "LEFT ASOF JOIN"),
    Entry(Group::Plain, "LIKE"),
    Entry(Group::Plain, "LOAD"),
    Entry(Group::Plain, "LOCK"),
    Entry(Group::Plain, "LOGS"),
];

const L_5: &[Entry] = &[
    Entry(Group::TopLevel, "LIMIT"),
    Entry(Group::Plain, "LEVEL"),
    Entry(Group::Plain, "LINES"),
    Entry(Group::Plain, "LOCAL"),
    Entry(Group::Plain, "LOCKS"),
];

const L_6: &[Entry] = &[Entry(Group::Plain, "LINEAR")];

const L_7: &[Entry] = &[Entry(Group::Plain, "LEADING")];

const L_12: &[Entry] = &[Entry(Group::Plain, "LOW_PRIORITY")];

const L_14: &[Entry] = &[Entry(Group::Plain, "LAST_INSERT_ID")];

const L: &[&[Entry]] = &[
    &[],
    &[],
    &[],
    &[],
    L_4,
    L_5,
    L_6,
    L_7,
    &[],
    &[],
    &[],
    &[],
    L_12,
    &[],
    L_14,
];

const M_4: &[Entry] = &[Entry(Group::Plain, "MODE")];

const M_5: &[Entry] = &[
    Entry(Group::TopLevel, "MERGE INTO"),
    Entry(Group::NoIndent, "MINUS"),
    Entry(Group::Plain, "MARIA"),
    Entry(Group::Plain, "MATCH"),
    Entry(Group::Plain, "MERGE"),
    Entry(Group::Plain, "MONTH"),
];

const M_6: &[Entry] = &[
    Entry(Group::TopLevel, "MODIFY"),
    Entry(Group::Plain, "MASTER"),
    Entry(Group::Plain, "MEDIUM"),
    Entry(Group::Plain, "MINUTE"),
    Entry(Group::Plain, "MODIFY"),
    Entry(Group::Plain, "MYISAM"),
];

const M_8: &[Entry] = &[
    Entry(Group::Plain, "MAX_ROWS"),
    Entry(Group::Plain, "MIN_ROWS"),
];

const M_10: &[Entry] = &[Entry(Group::Plain, "MRG_MYISAM")];

const M_11: &[Entry] = &[Entry(Group::Plain, "MASTER_HOST")];

const M_13: &[Entry] = &[Entry(Group::Plain, "MINUTE_SECOND")];

const M_15: &[Entry] = &[Entry(Group::Plain, "MASTER_LOG_FILE")];

const M_20: &[Entry] = &[
    Entry(Group::Plain, "MASTER_CONNECT_RETRY"),
    Entry(Group::Plain, "MAX_QUERIES_PER_HOUR"),
    Entry(Group::Plain, "MAX_UPDATES_PER_HOUR"),
    Entry(Group::Plain, "MAX_USER_CONNECTIONS"),
];

const M_24: &[Entry] = &[Entry(Group::Plain, "MAX_CONNECTIONS_PER_HOUR")];

const M: &[&[Entry]] = &[
    &[],
    &[],
    &[],
    &[],
    M_4,
    M_5,
    M_6,
    &[],
    M_8,
    &[],
    M_10,
    M_11,
    &[],
    M_13,
    &[],
    M_15,
    &[],
    &[],
    &[],
    &[],
    M_20,
    &[],
    &[],
    &[],
    M_24,
];

const N_3: &[Entry] = &[Entry(Group::Plain, "NOT"), Entry(Group::Plain, "NOW()")];

const N_4: &[Entry] = &[Entry(Group::Plain, "NULL")];

const N_5: &[Entry] = &[Entry(Group::Plain, "NAMES")];

const N_7: &[Entry] = &[Entry(Group::Plain, "NATURAL")];

const N: &[&[Entry]] = &[&[], &[], &[], N_3, N_4, N_5, &[], N_7];

const O_2: &[Entry] = &[
    Entry(Group::TopLevel, "ON CONFLICT"),
    Entry(Group::Newline, "OR"),
    Entry(Group::Plain, "ON CONFLICT"),
    Entry(Group::Plain, "ON CONSTRAINT"),
    Entry(Group::Plain, "ON DELETE"),
    Entry(Group::Plain, "ON UPDATE"),
    Entry(Group::Plain, "ON"),
];

const O_4: &[Entry] = &[Entry(Group::Plain, "ONLY"), Entry(Group::Plain, "OPEN")];

const O_5: &[Entry] = &[
    Entry(Group::TopLevel, "ORDER BY"),
    Entry(Group::Newline, "OUTER APPLY"),
];

const O_6: &[Entry] = &[Entry(Group::Plain, "OFFSET"), Entry(Group::Plain, "OPTION")];

const O_7: &[Entry] = &[Entry(Group::Plain, "OUTFILE")];

const O_8: &[Entry] = &[Entry(Group::Plain, "OPTIMIZE")];

const O_10: &[Entry] = &[Entry(Group::Plain, "OPTIONALLY")];

const O: &[&[Entry]] = &[&[], &[], O_2, &[], O_4, O_5, O_6, O_7, O_8, &[], O_10];

const P_4: &[Entry] = &[Entry(Group::Plain, "PAGE")];

const P_5: &[Entry] = &[
    Entry(Group::Join, "PASTE JOIN"),
    Entry(Group::Plain, "PURGE"),
];

const P_7: &[Entry] = &[
    Entry(Group::Plain, "PARTIAL"),
    Entry(Group::Plain, "PRIMARY"),
    Entry(Group::Plain, "PROCESS"),
];

const P_8: &[Entry] = &[Entry(Group::Plain, "PASSWORD")];

const P_9: &[Entry] = &[
    Entry(Group::TopLevel, "PARTITION BY"),
    Entry(Group::Plain, "PACK_KEYS"),
    Entry(Group::Plain, "PARTITION"),
    Entry(Group::Plain, "PROCEDURE"),
];

const P_10: &[Entry] = &[
    Entry(Group::Plain, "PARTITIONS"),
    Entry(Group::Plain, "PRIVILEGES"),
];

const P_11: &[Entry] = &[
    Entry(Group::Plain, "PARTITIONED BY"),
    Entry(Group::Plain, "PROCESSLIST"),
];

const P: &[&[Entry]] = &[&[], &[], &[], &[], P_4, P_5, &[], P_7, P_8, P_9, P_10, P_11];

const Q_5: &[Entry] = &[Entry(Group::Plain, "QUICK")];

const Q: &[&[Entry]] = &[&[], &[], &[], &[], &[], Q_5];

const R_3: &[Entry] = &[Entry(Group::Plain, "ROW")];

const R_4: &[Entry] = &[Entry(Group::Plain, "READ"), Entry(Group::Plain, "ROWS")];

const R_5: &[Entry] = &[
    Entry(Group::Join, "RIGHT JOIN"),
    Entry(Group::Join, "RIGHT OUTER JOIN"),
    Entry(Group::Join, "RIGHT ANY JOIN"),
    Entry(Group::Join, "RIGHT SEMI JOIN"),
    Entry(Group::Join, "RIGHT ANTI JOIN"),
    Entry(Group::Plain, "RAID0"),
    Entry(Group::Plain, "RANGE"),
    Entry(Group::Plain, "RESET"),
    Entry(Group::Plain, "RLIKE"),
];

const R_6: &[Entry] = &[
    Entry(Group::Plain, "REGEXP"),
    Entry(Group::Plain, "RELOAD"),
    Entry(Group::Plain, "RENAME"),
    Entry(Group::Plain, "REPAIR"),
    Entry(Group::Plain, "RETURN"),
    Entry(Group::Plain, "REVOKE"),
];

const R_7: &[Entry] = &[
    Entry(Group::Plain, "REPLACE"),
    Entry(Group::Plain, "RESTORE"),
    Entry(Group::Plain, "RETURNS"),
];

const R_8: &[Entry] = &[
    Entry(Group::Plain, "RESTRICT"),
    Entry(Group::Plain, "ROLLBACK"),
];

const R_9: &[Entry] = &[
    Entry(Group::TopLevel, "RETURNING"),
    Entry(Group::Plain, "RAID_TYPE"),
    Entry(Group::Plain, "READ_ONLY"),
];

const R_10: &[Entry] = &[
    Entry(Group::Plain, "READ_WRITE"),
    Entry(Group::Plain, "REFERENCES"),
    Entry(Group::Plain, "REPEATABLE"),
    Entry(Group::Plain, "ROW_FORMAT"),
];

const R_11: &[Entry] = &[
    Entry(Group::Plain, "RAID_CHUNKS"),
    Entry(Group::Plain, "REPLICATION"),
];

const R_14: &[Entry] = &[Entry(Group::Plain, "RAID_CHUNKSIZE")];

const R: &[&[Entry]] = &[
    &[],
    &[],
    &[],
    R_3,
    R_4,
    R_5,
    R_6,
    R_7,
    R_8,
    R_9,
    R_10,
    R_11,
    &[],
    &[],
    R_14,
];

const S_3: &[Entry] = &[
    Entry(Group::TopLevel, "SET CURRENT SCHEMA"),
    Entry(Group::TopLevel, "SET SCHEMA"),
    Entry(Group::TopLevel, "SET"),
    Entry(Group::Plain, "SQL"),
];

const S_4: &[Entry] = &[
    Entry(Group::Join, "SEMI JOIN"),
    Entry(Group::Plain, "SHOW"),
    Entry(Group::Plain, "STOP"),
];

const S_5: &[Entry] = &[
    Entry(Group::Plain, "SHARE"),
    Entry(Group::Plain, "SLAVE"),
    Entry(Group::Plain, "START"),
    Entry(Group::Plain, "SUPER"),
];

const S_6: &[Entry] = &[
    Entry(Group::TopLevel, "SELECT DISTINCT"),
    Entry(Group::TopLevel, "SELECT ALL"),
    Entry(Group::TopLevel, "SELECT"),
    Entry(Group::Plain, "SECOND"),
    Entry(Group::Plain, "SONAME"),
    Entry(Group::Plain, "SOUNDS"),
    Entry(Group::Plain, "STATUS"),
    Entry(Group::Plain, "STRING"),
];

const S_7: &[Entry] = &[
    Entry(Group::Plain, "SESSION"),
    Entry(Group::Plain, "STORAGE"),
    Entry(Group::Plain, "STRIPED"),
];

const S_8: &[Entry] = &[
    Entry(Group::Plain, "SECURITY"),
    Entry(Group::Plain, "SHUTDOWN"),
    Entry(Group::Plain, "STARTING"),
];

const S_9: &[Entry] = &[
    Entry(Group::Plain, "SEPARATOR"),
    Entry(Group::Plain, "SQL_CACHE"),
];

const S_11: &[Entry] = &[
    Entry(Group::Plain, "SQL_LOG_BIN"),
    Entry(Group::Plain, "SQL_LOG_OFF"),
];

const S_12: &[Entry] = &[
    Entry(Group::Plain, "SERIALIZABLE"),
    Entry(Group::Plain, "SQL_NO_CACHE"),
    Entry(Group::Plain, "SQL_WARNINGS"),
];

const S_13: &[Entry] = &[Entry(Group::Plain, "STRAIGHT_JOIN")];

const S_14: &[Entry] = &[
    Entry(Group::Plain, "SQL_BIG_RESULT"),
    Entry(Group::Plain, "SQL_BIG_TABLES"),
    Entry(Group::Plain, "SQL_LOG_UPDATE"),
];

const S_15: &[Entry] = &[Entry(Group::Plain, "SQL_BIG_SELECTS")];

const S_16: &[Entry] = &[
    Entry(Group::Plain, "SQL_AUTO_IS_NULL"),
    Entry(Group::Plain, "SQL_SAFE_UPDATES"),
    Entry(Group::Plain, "SQL_SELECT_LIMIT"),
    Entry(Group::Plain, "SQL_SMALL_RESULT"),
];

const S_17: &[Entry] = &[
    Entry(Group::Plain, "SQL_BUFFER_RESULT"),
    Entry(Group::Plain, "SQL_MAX_JOIN_SIZE"),
];

const S_19: &[Entry] = &[Entry(Group::Plain, "SQL_CALC_FOUND_ROWS")];

const S_21: &[Entry] = &[Entry(Group::Plain, "SQL_QUOTE_SHOW_CREATE")];

const S_22: &[Entry] = &[Entry(Group::Plain, "SQL_SLAVE_SKIP_COUNTER")];

const S_24: &[Entry] = &[Entry(Group::Plain, "SQL_LOW_PRIORITY_UPDATES")];

const S: &[&[Entry]] = &[
    &[],
    &[],
    &[],
    S_3,
    S_4,
    S_5,
    S_6,
    S_7,
    S_8,
    S_9,
    &[],
    S_11,
    S_12,
    S_13,
    S_14,
    S_15,
    S_16,
    S_17,
    &[],
    S_19,
    &[],
    S_21,
    S_22,
    &[],
    S_24,
];

const T_2: &[Entry] = &[Entry(Group::Plain, "TO")];

const T_4: &[Entry] = &[
    Entry(Group::Plain, "THEN"),
    Entry(Group::Plain, "TRUE"),
    Entry(Group::Plain, "TYPE"),
];

const T_5: &[Entry] = &[Entry(Group::Plain, "TABLE"), Entry(Group::Plain, "TYPES")];

const T_6: &[Entry] = &[Entry(Group::Plain, "TABLES")];

const T_8: &[Entry] = &[
    Entry(Group::Plain, "TRAILING"),
    Entry(Group::Plain, "TRUNCATE"),
];

const T_9: &[Entry] = &[Entry(Group::Plain, "TEMPORARY")];

const T_10: &[Entry] = &[Entry(Group::Plain, "TERMINATED")];

const T_13: &[Entry] = &[
    Entry(Group::Plain, "TRANSACTIONAL"),
    Entry(Group::Plain, "TBLPROPERTIES"),
];

const T: &[&[Entry]] = &[
    &[],
    &[],
    T_2,
    &[],
    T_4,
    T_5,
    T_6,
    &[],
    T_8,
    T_9,
    T_10,
    &[],
    &[],
    T_13,
];

const U_3: &[Entry] = &[Entry(Group::Plain, "USE")];

const U_5: &[Entry] = &[
    Entry(Group::TopLevel, "USING"),
    Entry(Group::NoIndent, "UNION ALL"),
    Entry(Group::NoIndent, "UNION"),
    Entry(Group::Plain, "USAGE"),
];

const U_6: &[Entry] = &[
    Entry(Group::TopLevel, "UPDATE"),
    Entry(Group::Plain, "UNIQUE"),
    Entry(Group::Plain, "UNLOCK"),
];

const U_8: &[Entry] = &[Entry(Group::Plain, "UNSIGNED")];

const U_11: &[Entry] = &[Entry(Group::Plain, "UNCOMMITTED")];

const U: &[&[Entry]] = &[&[], &[], &[], U_3, &[], U_5, U_6, &[], U_8, &[], &[], U_11];

const V_4: &[Entry] = &[Entry(Group::Plain, "VIEW")];

const V_6: &[Entry] = &[Entry(Group::TopLevel, "VALUES")];

const V_8: &[Entry] = &[Entry(Group::Newline, "VALIDATE")];

const V_9: &[Entry] = &[Entry(Group::Plain, "VARIABLES")];

const V: &[&[Entry]] = &[&[], &[], &[], &[], V_4, &[], V_6, &[], V_8, V_9];

const W_4: &[Entry] = &[
    Entry(Group::Newline, "WHEN"),
    Entry(Group::NoIndent, "WITH"),
    Entry(Group::Plain, "WHEN"),
    Entry(Group::Plain, "WORK"),
];

const W_5: &[Entry] = &[
    Entry(Group::TopLevel, "WHERE"),
    Entry(Group::Plain, "WRITE"),
];

const W_6: &[Entry] = &[Entry(Group::TopLevel, "WINDOW")];

const W: &[&[Entry]] = &[&[], &[], &[], &[], W_4, W_5, W_6];

const X_3: &[Entry] = &[Entry(Group::Newline, "XOR")];

const X: &[&[Entry]] = &[&[], &[], &[], X_3];

const Y_10: &[Entry] = &[Entry(Group::Plain, "YEAR_MONTH")];

const Y: &[&[Entry]] = &[&[], &[], &[], &[], &[], &[], &[], &[], &[], &[], Y_10];

// The phrases that begin with a letter, by the length of their first word.
pub fn lengths_of(letter: u8) -> &'static [&'static [Entry]]
    ensures { (n : ℕ) → listed_at n result.now ≡ entries_long n (entries_of letter entries) }
{
    match letter {
        b'$' => DOLLAR,
        b'A' => A,
        b'B' => B,
        b'C' => C,
        b'D' => D,
        b'E' => E,
        b'F' => F,
        b'G' => G,
        b'H' => H,
        b'I' => I,
        b'J' => J,
        b'K' => K,
        b'L' => L,
        b'M' => M,
        b'N' => N,
        b'O' => O,
        b'P' => P,
        b'Q' => Q,
        b'R' => R,
        b'S' => S,
        b'T' => T,
        b'U' => U,
        b'V' => V,
        b'W' => W,
        b'X' => X,
        b'Y' => Y,
        _ => &[],
    }
}
