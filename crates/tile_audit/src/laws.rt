// Laws of the definitions, for the crates above. Each function does nothing: its contract is the
// law.

ghost use Rattle.tile_audit.specs.Laws.{AuditsAreOnce, CleanAudits, OneJudged, SomeAudit, SomeJudged};

/// The bytes of a tile have one verdict, and no two.
pub fn tiles_have_one_verdict()
    ensures one { OneJudged }
    ensures some { SomeJudged }
{}

/// A bundle has an audit; and two in which each tile was read are the same.
pub fn audits_have_one_answer()
    ensures one { AuditsAreOnce }
    ensures some { SomeAudit }
{}

/// Where an audit finds no tile damaged, nor of another format or version, the bundle is readable,
/// and each tile in it is the blobs of bands, or blobs of floating-point numbers with their
/// checksums.
pub fn clean_audits_find_whole_tiles()
    ensures { CleanAudits }
{}
