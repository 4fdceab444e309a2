// What holds of the packets of every run.
ghost use Rattle.std.specs.Prelude.{◌≡◌, ℕ, List, ◌∷◌, ◌++◌, Some};
ghost use Rattle.tva_shim.specs.Packets.{PacketData};
ghost use Rattle.tva_plan.specs.declared.config.Config.{Config};
ghost use Rattle.tva_plan.specs.Valid.{IsConfig};
ghost use Rattle.tva_rows.specs.declared.rows.Row.{Row};
ghost use Rattle.tva_run.specs.declared.kinds.Input.{Input};
ghost use Rattle.tva_run.specs.Sites.{Site};
ghost use Rattle.tva_run.specs.Entries.{Content, Entry, Took};
ghost use Rattle.tva_run.specs.Reaching.{Logs, log_at, site_at};
ghost use Rattle.tva_run.specs.Run.{IsRunTo};
ghost use Rattle.tva_laws.specs.Origins.{HasOrigin, comes_in};

/// In every run up to a time, in nanoseconds, each packet that comes to a node was made at the node that
/// its identity names, for a row or as a reply. It still has its flow, its payload, its upper part, its
/// shim's version and kind, the nonce, the rights and the number of capabilities that it shows, its return
/// info, and its mark where it had one.
pub fn packets_have_origins()
    ensures { (config : Config) (rows : List Row) (until : ℕ) (logs : Logs) → IsConfig config
        → IsRunTo config rows until logs
        → (node : ℕ) (site : Site) → site_at config node ≡ Some site
        → (before : List Entry) (input : Input) (content : Content) (rest : List Entry)
        → log_at logs node ≡ before ++ Took input content ∷ rest
        → (packet : PacketData) → comes_in content ≡ Some packet → HasOrigin logs packet }
{}
