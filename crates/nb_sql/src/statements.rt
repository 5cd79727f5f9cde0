//! The texts of the five statements.

pub(crate) const CREATE: &str =
    "CREATE TABLE IF NOT EXISTS cells(space INTEGER NOT NULL, slot BLOB NOT NULL, held BLOB NOT NULL, PRIMARY KEY(space, slot)) STRICT";

pub(crate) const GET: &str = "SELECT held FROM cells WHERE space = ?1 AND slot = ?2";

pub(crate) const SCAN: &str = "SELECT slot, held FROM cells WHERE space = ?1 ORDER BY slot";

pub(crate) const PUT: &str =
    "INSERT INTO cells(space, slot, held) VALUES(?1, ?2, ?3) ON CONFLICT(space, slot) DO UPDATE SET held = excluded.held";

pub(crate) const ERASE: &str = "DELETE FROM cells WHERE space = ?1 AND slot = ?2";
