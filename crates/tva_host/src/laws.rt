// What holds of every history of a host.
ghost use Rattle.std.specs.Prelude.{◌≡◌, ℕ, ◌+◌, ◌==◌, true, false, List, IfSome, Some};
ghost use Rattle.tva_base.specs.declared.{addresses.Address.Address, packet.Upper.Upper, plan.HostPlan.HostPlan};
ghost use Rattle.tva_base.specs.declared.packet.Upper.TheVariants as upper;
ghost use Rattle.tva_shim.specs.{declared.kinds.ReturnInfo.ReturnInfo, Layout.return_size};
ghost use Rattle.tva_shim.specs.Packets.{PacketData, packet_length};
ghost use Rattle.tva_shim.specs.declared.packets.Carried.TheVariants as carried;
ghost use Rattle.tva_sender.specs.{declared.shape.Shape.Shape, Shapes.length_of, Played.IsPlayed, Played.NoneLater};
ghost use Rattle.tva_sender.specs.Book.{of_peer};
ghost use Rattle.tva_host.specs.{History.History, Calls.Call, Calls.history_of, Calls.last_time, Calls.NeverFall};
ghost use Rattle.tva_host.specs.Sending.{is_legacy, shim_of, next_shape, intended};
ghost use Rattle.tva_host.specs.Receiving.{body_of, reply_of, upper_of, receipt_of};

/// What a host's calls make with each of its peers is what a sender can have with it, and no packet is
/// prepared later than the last call, whatever is called at times that never fall.
pub fn peers_are_played()
    ensures played { (plan : HostPlan) (calls : List Call) (a : Address) → NeverFall 0 calls
        → IsPlayed plan.margin plan.retry plan.version (of_peer a (history_of plan calls).contacts) }
    ensures times { (plan : HostPlan) (calls : List Call) (a : Address) → NeverFall 0 calls
        → NoneLater (last_time 0 calls) (of_peer a (history_of plan calls).contacts) }
{}

/// A packet in a shape has the length that a sender counts for it, with its payload and its return info
/// as the body, in bytes. A sender counts no legacy packet.
pub fn lengths_are_counted()
    ensures shape { (version : ℕ) (shape : Shape) (back : ReturnInfo) (p : PacketData) → is_legacy shape ≡ false
        → p.carried ≡ carried.Shim (shim_of version shape back)
        → packet_length p ≡ length_of version shape (p.payload + return_size version back) }
    ensures intended { (node : ℕ) (plan : HostPlan) (h : History) (now : ℕ) (dst : Address) (payload : ℕ) (above : Upper)
        → is_legacy (next_shape plan h now dst payload) ≡ false
        → packet_length (intended node plan h now dst payload above).packet
        ≡ length_of plan.version (next_shape plan h now dst payload) payload }
    ensures reply { (node : ℕ) (plan : HostPlan) (h : History) (now : ℕ) (src : Address) (back : ReturnInfo) (above : Upper)
        → is_legacy (next_shape plan h now src (body_of plan.version back above)) ≡ false
        → IfSome (reply_of node plan h now src (Some back) above) (λ made. packet_length made.packet
        ≡ length_of plan.version (next_shape plan h now src (body_of plan.version back above)) (body_of plan.version back above)) }
{}

/// An upper part that is to be answered is that of the reply: a packet to the host gets a reply that has it,
/// whatever else is answered, and no reply has another. Where nothing is to be answered, none has any.
pub fn answers_are_shown()
    ensures here { (node : ℕ) (plan : HostPlan) (h : History) (now : ℕ) (p : PacketData) (above : Upper)
        → (p.flow.dst.0 == plan.address.0) ≡ true → upper_of (receipt_of node plan h now p above).reply ≡ above }
    ensures nothing { (node : ℕ) (plan : HostPlan) (h : History) (now : ℕ) (p : PacketData)
        → upper_of (receipt_of node plan h now p upper.Nothing).reply ≡ upper.Nothing }
    ensures reply { (node : ℕ) (plan : HostPlan) (h : History) (now : ℕ) (p : PacketData) (above : Upper)
        → IfSome (receipt_of node plan h now p above).reply (λ made. made.packet.upper ≡ above) }
{}
